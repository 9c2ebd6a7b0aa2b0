// The line for words that spell no command.
ghost use Rattle.std.specs.Prelude.{◌≡◌};
ghost use Rattle.mg_io.specs.Arguments.{PrintsUsage};

use mg_io::{Sink, put_all};
use mg_serve::Status;

/// Prints the line `usage`.
pub fn put_usage<K: Sink>(sink: &mut K) -> Status
    ensures { PrintsUsage K.Sink (result ≡ Status.Usage) (result ≡ Status.Sink) sink.old sink.new }
{
    match put_all(sink, b"usage\n") {
        Ok(()) => Status::Usage,
        Err(_) => Status::Sink,
    }
}
