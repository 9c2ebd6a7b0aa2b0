// The frames that were found last.
ghost use Rattle.std.specs.Prelude.{◌≡◌, ◌≢◌, ◌==◌, position};

use mg_frames::Frames;

/// How many sets of pages there are: page p is in set p modulo 256.
const PAGE_SETS: usize = 256;

/// For each set of pages the frame of the page that was found there last. With them a page that is used again is found in as few steps
/// among many as alone.
#[derive(Drop)]
pub(crate) struct Near {
    found: [u64; PAGE_SETS],
}

impl Near {
    /// No page was found yet.
    pub(crate) fn new() -> Near {
        Near {
            found: [0; PAGE_SETS],
        }
    }

    /// The frame that holds a page, which is not 0.
    pub(crate) fn frame_of(&mut self, frames: &Frames, page: u64) -> Option<u64>
        requires { page ≢ 0 }
        ensures { result ≡ position (λ entry. entry == page) frames.now }
    {
        let set = page as usize % PAGE_SETS;
        match frames.bound_near(page, self.found[set]) {
            Some(frame) => {
                self.found[set] = frame;
                Some(frame)
            }
            None => None,
        }
    }
}
