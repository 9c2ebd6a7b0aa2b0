// The numbers of the standard streams.
use std::fs::{OpenFile, OpenOptions};
use std::io;
use std::rt::Files;

/// A folder that is always there. Nothing can be read from it or written to it.
const FOLDER: &str = "/";

/// While its result is kept, no file that is opened gets the number of a standard stream, 0 to 2. The system gives the
/// lowest number that is free. So if the caller has closed its standard output, replies would otherwise go into the next
/// file that is opened. This function opens a folder under each of these numbers that is free, so that each call on that
/// stream is an error.
///
/// An error comes if the folder can't be opened.
pub fn standard_numbers<R: Files>(rt: &R) -> io::Result<(R::File, R::File, R::File)> {
    let first = OpenOptions::new().read(true).open(rt, FOLDER)?;
    let second = OpenOptions::new().read(true).open(rt, FOLDER)?;
    let third = OpenOptions::new().read(true).open(rt, FOLDER)?;
    Ok((first, second, third))
}
