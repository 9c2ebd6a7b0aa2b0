// What is printed besides the replies.
ghost use Rattle.std.specs.Prelude.{◌≡◌, ◌+◌, ◌<◌, ◌≤◌, ◌⊎◌, [], length};
ghost use Rattle.std.specs.Io.KnownBytes.{Appends};
ghost use Rattle.arrayvec.specs.ArrayVec.{array_vec_len};
ghost use Rattle.mg_faults.specs.Faults.{CountGoesOn, Rose};
ghost use Rattle.mg_io.specs.Known.{AppendsPrefix};
ghost use Rattle.mg_commands.specs.Headline.{PrintsLast};
ghost use Rattle.mg_window.specs.Attached.{seen, window_at};
ghost use Rattle.mg_window_session.specs.Headline.{device_line, device_lines};

use arrayvec::ArrayVec;
use mg_io::{Sink, put_all};
use mg_serve::Status;
use mg_text::{push_number, push_text, push_word};
use mg_window::{Device, Windows};

/// Room for the lines of 16 devices.
const ROOM: usize = 16 * 72;

/// Prints the lines of the devices in one call of `put_all`, if the lines that ran are done.
pub(crate) fn put_devices<T: Device, K: Sink>(
    ran: Status,
    windows: &Windows<T>,
    sink: &mut K,
) -> Status
    ensures ends { PrintsLast K.Sink ran (device_lines (seen T.held windows.now)) result sink.old sink.new }
    ensures sink_count { CountGoesOn (K.faults sink.old) (K.faults sink.new) (K.is_spent sink.old) (K.is_spent sink.new) }
{
    match ran {
        Status::Done => put_lines(windows, sink),
        _ => ran,
    }
}

fn put_lines<T: Device, K: Sink>(windows: &Windows<T>, sink: &mut K) -> Status
    ensures ends { PrintsLast K.Sink Status.Done (device_lines (seen T.held windows.now)) result sink.old sink.new }
    ensures sink_count { CountGoesOn (K.faults sink.old) (K.faults sink.new) (K.is_spent sink.old) (K.is_spent sink.new) }
{
    let text = device_text(windows);
    match put_all(sink, text.as_slice()) {
        Ok(()) => Status::Done,
        Err(_) => Status::Sink,
    }
}

/// The lines of the devices, in their order.
fn device_text<T: Device>(windows: &Windows<T>) -> ArrayVec<u8, ROOM>
    ensures { result.items ≡ device_lines (seen T.held windows.now) }
{
    let count = windows.len();
    let mut text = ArrayVec::new();
    let mut i = 0;
    while i < count {
        let mut line = ArrayVec::new();
        print_device(windows, i, &mut line);
        let _ = text.try_extend_from_slice(line.as_slice());
        i += 1;
    }
    text
}

/// Writes the line of the i-th device into an empty buffer.
fn print_device<T: Device>(windows: &Windows<T>, i: usize, out: &mut ArrayVec<u8, 256>)
    requires place { i < length windows.now }
    requires empty { out.old.items ≡ [] }
    ensures text { out.new.items ≡ device_line (window_at (seen T.held windows.now) i) }
    ensures short { length out.new.items ≤ 72 }
{
    push_text(out, b"dev");
    push_word(out, windows.base_at(i));
    push_number(out, windows.kind_at(i));
    push_number(out, windows.length_at(i));
    push_text(out, b"\n");
}
