//! The heap is asked, and its answers stand in the log.

ghost use Rattle.std.specs.Prelude.{◌≡◌, ◌∷◌, ◌++◌, ◌<◌, [], true, length, slice_index_or, IfOk, IfSome, OnOk, OnErr};
ghost use Rattle.c_meaning.specs.declared.log.LogEntry.TheVariants as AnEntry;
ghost use Rattle.range_heap.specs.Blocks.{live};
ghost use Rattle.range_heap.specs.declared.call.HeapEvent.TheVariants as AnEvent;
ghost use Rattle.range_heap.specs.Steps.{histories};
ghost use Rattle.machine_library.specs.Leads.{entry_for, event_for, IsNoted};

use c_meaning::LogEntry;
use machine_state::Ledger;
use tok_base::NoMemory;

/// The entry for an answer.
fn entry(token: u64, size: u128, answer: Option<u64>) -> LogEntry
    ensures { result ≡ entry_for token size answer }
{
    match answer {
        Some(place) => LogEntry::Grant { token, size, place },
        None => LogEntry::Refuse { token, size },
    }
}

/// Asks the range of a token, and notes the answer.
pub(crate) fn ask(ledger: &mut Ledger, token: u64, size: u128) -> Result<Option<u64>, NoMemory>
    ensures noted { IfOk result (λ answer. IsNoted ledger.old.ranges ledger.new.ranges token (event_for size answer)) }
    ensures inside { IfOk result (λ answer. IfSome answer (λ place. token < length ledger.old.ranges.heaps)) }
    ensures log { IfOk result (λ answer. ledger.new.rest.log.items ≡ ledger.old.rest.log.items ++ entry_for token size answer ∷ []) }
    ensures failed { OnErr result (ledger.new.rest.log.items ≡ ledger.old.rest.log.items) }
    ensures kept { ledger.new ≡ record ledger.old { ranges = ledger.new.ranges; rest = record (ledger.old.rest) { log = ledger.new.rest.log } } }
{
    ledger.rest.log.reserve(1)?;
    ledger.ranges.reserve(token, 1)?;
    let answer = ledger.ranges.grant(0, token, size);
    ledger.ranges.stands();
    ledger.rest.log.push_reserved(entry(token, size, answer));
    Ok(answer)
}

/// Gives the live block at a place of a range back, and notes it.
pub(crate) fn give_back(ledger: &mut Ledger, token: u32, place: u64) -> Result<(), NoMemory>
    requires inside { token < length ledger.old.ranges.heaps }
    requires live { live place (slice_index_or (histories ledger.old.ranges) token []) ≡ true }
    ensures noted { OnOk result (IsNoted ledger.old.ranges ledger.new.ranges token (AnEvent.Release place)) }
    ensures log { OnOk result (ledger.new.rest.log.items ≡ ledger.old.rest.log.items ++ AnEntry.Release token place ∷ []) }
    ensures failed { OnErr result (ledger.new.rest.log.items ≡ ledger.old.rest.log.items) }
    ensures kept { ledger.new ≡ record ledger.old { ranges = ledger.new.ranges; rest = record (ledger.old.rest) { log = ledger.new.rest.log } } }
{
    ledger.rest.log.reserve(1)?;
    let token = u64::from(token);
    ledger.ranges.reserve(token, 1)?;
    ledger.ranges.release(0, place);
    ledger.ranges.stands();
    ledger
        .rest
        .log
        .push_reserved(LogEntry::Release { token, place });
    Ok(())
}
