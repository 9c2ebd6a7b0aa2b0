// A session as its file spells it.
use std::alloc::{AllocError, Global};

/// The seed of a file that names none.
const SEED: &str = "0000000000000000000000000000000000000000000000000000000000000000";

/// The parameters of a session, and what is to be compared.
#[derive(Clone, Copy)]
pub struct Settings<'a> {
    pub frames: &'a str,
    pub seed: &'a str,
    pub credits: &'a str,
    /// The four steps. None for the usual tariff.
    pub tariff: Option<&'a str>,
    /// What `check` must print after the last run, without the newline. None if the file does not say.
    pub check: Option<&'a str>,
    /// The batch of the runs in which the disk stops after each call. None for no stops.
    pub stops: Option<&'a str>,
    /// The batch of the runs in which each call fails once. None for no faults.
    pub faults: Option<&'a str>,
    /// The batch of the runs in which each take and each put fails once, and no call of the disk. None for no such runs.
    pub streams: Option<&'a str>,
    /// Whether batches of 64 lines must make fewer syncs than single lines.
    pub saves: bool,
    /// Whether files beside the session hold what is shown after the last run.
    pub shows: bool,
}

/// A session: its settings, its file, which is its runs one after the other, and the texts that must be shown after the last run. There
/// are no texts without `#: shows`.
#[derive(Clone, Copy)]
pub struct Session<'a> {
    pub settings: Settings<'a>,
    pub file: &'a [u8],
    pub texts: &'a [Vec<u8>],
}

impl<'a> Settings<'a> {
    /// The settings of a file that names none.
    pub fn usual() -> Settings<'a> {
        Settings {
            frames: "64",
            seed: SEED,
            credits: "1000",
            tariff: None,
            check: None,
            stops: None,
            faults: None,
            streams: None,
            saves: false,
            shows: false,
        }
    }

    /// The words of `dry`, which has the usual tariff only.
    pub fn dry_line(&self, alloc: Global) -> Result<String, AllocError> {
        let frames = self.frames;
        let seed = self.seed;
        let credits = self.credits;
        format!(in alloc; "vol dry {frames} {seed} {credits}")
    }

    /// The words of `format`.
    pub fn format_line(&self, alloc: Global) -> Result<String, AllocError> {
        let frames = self.frames;
        let seed = self.seed;
        let credits = self.credits;
        let tariff = self.tariff.unwrap_or("");
        format!(in alloc; "vol format {frames} {seed} {credits} {tariff}")
    }
}
