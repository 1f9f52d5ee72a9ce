ghost use Rattle.command_line.specs.Contract.{views};
ghost use Rattle.command_line.specs.declared.status.Status.TheVariants.{Usage, ReadFault, WriteFault, TooLarge, Refused, Rejected, Unproved};
ghost use Rattle.always_answers.specs.Shown.{IsRefused};

use desk_io::{Desk, Sink};

/// A call that always answers usage is refused.
pub fn always_usage<K: Desk, S: Sink, N: Sink>()
    ensures { IsRefused (views K.held K.faults S.written S.faults N.written N.faults) Usage }
{}

/// A call that always answers a read fault is refused.
pub fn always_read_fault<K: Desk, S: Sink, N: Sink>()
    ensures { IsRefused (views K.held K.faults S.written S.faults N.written N.faults) ReadFault }
{}

/// A call that always answers a write fault is refused.
pub fn always_write_fault<K: Desk, S: Sink, N: Sink>()
    ensures { IsRefused (views K.held K.faults S.written S.faults N.written N.faults) WriteFault }
{}

/// A call that always answers that a file is too large is refused.
pub fn always_too_large<K: Desk, S: Sink, N: Sink>()
    ensures { IsRefused (views K.held K.faults S.written S.faults N.written N.faults) TooLarge }
{}

/// A call that always answers that the file is refused is refused.
pub fn always_refused<K: Desk, S: Sink, N: Sink>()
    ensures { IsRefused (views K.held K.faults S.written S.faults N.written N.faults) Refused }
{}

/// A call that always answers that the log is rejected is refused.
pub fn always_rejected<K: Desk, S: Sink, N: Sink>()
    ensures { IsRefused (views K.held K.faults S.written S.faults N.written N.faults) Rejected }
{}

/// A call that always answers that a statement is not proved is refused.
pub fn always_unproved<K: Desk, S: Sink, N: Sink>()
    ensures { IsRefused (views K.held K.faults S.written S.faults N.written N.faults) Unproved }
{}
