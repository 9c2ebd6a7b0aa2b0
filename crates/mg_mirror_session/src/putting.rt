// What is put besides the replies.
ghost use Rattle.mg_faults.specs.Faults.{CountGoesOn};
ghost use Rattle.mg_mirror_session.specs.Headline.{PutsSide};

use mg_io::{Sink, put_all};
use mg_mirror::Side;
use mg_session::Status;

/// Puts the line of the side that stands alone, if one does and the run is done.
pub(crate) fn put_side<K: Sink>(ran: Status, alone: Option<Side>, sink: &mut K) -> Status
    ensures ends { PutsSide K.Sink ran alone result sink.old sink.new }
    ensures sink_count { CountGoesOn (K.faults sink.old) (K.faults sink.new) (K.is_spent sink.old) (K.is_spent sink.new) }
{
    match (ran, alone) {
        (Status::Done, Some(side)) => put_line(side, sink),
        _ => ran,
    }
}

fn put_line<K: Sink>(side: Side, sink: &mut K) -> Status
    ensures ends { PutsSide K.Sink Status.Done (Some side) result sink.old sink.new }
    ensures sink_count { CountGoesOn (K.faults sink.old) (K.faults sink.new) (K.is_spent sink.old) (K.is_spent sink.new) }
{
    let put = match side {
        Side::Left => put_all(sink, b"alone left\n"),
        Side::Right => put_all(sink, b"alone right\n"),
    };
    match put {
        Ok(()) => Status::Done,
        Err(_) => Status::Sink,
    }
}
