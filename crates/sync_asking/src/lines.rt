//! The lines of a reply.
ghost use Rattle.std.specs.Prelude.{◌≡◌, ◌≢◌, ◌<◌, [], Err, IfErr, IfOk, IfSome, None, Ok, OnOk, Some, false};
ghost use Rattle.std.specs.Prelude.{length, true};
ghost use Rattle.sync_stream.specs.Stream.{is_closed};
ghost use Rattle.sync_asking.specs.Lines.{GivesLine, HasGiven, IsFaulty, reader_fault};

use std::alloc::Global;
use sync_phases::SyncFault;
use sync_stream::{Line, Reader, StreamFault};

pub fn stream_fault(fault: StreamFault) -> SyncFault
    ensures ends { result ≡ reader_fault fault }
    ensures never { result ≢ SyncFault.Link }
{
    match fault {
        StreamFault::At(number) => SyncFault::Broken(number),
        StreamFault::TooLong(number) => SyncFault::Broken(number),
        StreamFault::Memory => SyncFault::Memory,
    }
}

/// The next line of a reader whose end has not come, if a whole one is there.
pub fn next_line(alloc: Global, reader: &mut Reader) -> Result<Option<Line>, SyncFault>
    requires no_fault { reader.old.fault ≡ None }
    requires open_ { is_closed reader.old.place ≡ false }
    ensures gives { IfOk result (GivesLine reader.old reader.new) }
    ensures takes { IfOk result
        (λ o. IfSome o (λ _. length reader.new.rest < length reader.old.rest)) }
    ensures no_fault { OnOk result (reader.new.fault ≡ None) }
    ensures open_ { IfOk result (λ o. o ≢ Some Line.End → is_closed reader.new.place ≡ false) }
    ensures closed { result ≡ Ok (Some Line.End) → is_closed reader.new.place ≡ true }
    ensures err { IfErr result (λ fault. HasGiven reader.old reader.new []
        × IsFaulty reader.new fault) }
    ensures kind { reader.new.kind ≡ reader.old.kind }
    ensures never { result ≢ Err SyncFault.Link }
{
    match reader.next_line(alloc) {
        Ok(line) => Ok(line),
        Err(fault) => Err(stream_fault(fault)),
    }
}

/// Whether nothing stands behind the end that was given.
pub fn end_lines(alloc: Global, reader: &mut Reader) -> Result<(), SyncFault>
    requires no_fault { reader.old.fault ≡ None }
    requires closed { is_closed reader.old.place ≡ true }
    ensures ok { OnOk result ((reader.new ≡ reader.old) × (reader.new.rest ≡ [])) }
    ensures err { IfErr result (λ fault. HasGiven reader.old reader.new []
        × IsFaulty reader.new fault) }
    ensures kind { reader.new.kind ≡ reader.old.kind }
    ensures never { result ≢ Err SyncFault.Link }
{
    match reader.finish(alloc) {
        Ok(()) => Ok(()),
        Err(fault) => Err(stream_fault(fault)),
    }
}
