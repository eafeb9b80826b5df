//! The end of a run: the driver closes, every lock expires, all that waits is drained, the clients catch
//! up, and each document that needs it is put into the keeper.

ghost use Rattle.std.specs.Prelude.{◌≡◌, ◌++◌, ◌∷◌, [], ℕ, length, map, OnOk, IfErr, Some, None};
ghost use Rattle.journal_entries.specs.declared.act.Act.TheVariants.{Closed};
ghost use Rattle.journal_rules.specs.Documents.{IsMade, makings, waiting};
ghost use Rattle.journal_rules.specs.Legal.{closed};
ghost use Rattle.ending_rules.specs.Rounds.{any_below, has_any, is_unfinished as is_unfinished_lem, needs_round as needs_round_lem};
ghost use Rattle.turn_rules.specs.Clients.{is_joined as is_joined_lem};
ghost use Rattle.turn_rules.specs.Locking.{busy};
ghost use Rattle.turn_rules.specs.Owning.{MayEnd, MayWriteFor};
ghost use Rattle.turn_rules.specs.Turns.{entry_by};
ghost use Rattle.run_rules.specs.Ending.{CatchesUp, DrainsDry, Ends, FlushesAtEnd, InOrder, Rounds, at_end, sending_acts};
ghost use Rattle.share_client.specs.Clients.{told_send};
ghost use Rattle.book.specs.Going.{GoesOn, with_journal};
ghost use Rattle.book.specs.Roomed.{IsClientAfter, IsClientOf};
ghost use Rattle.script_driver.specs.Clients.{AreClientsOf, GoesQuietly, StayAll};

use book::{Book, By};
use dispatcher::{DrainEnd, drain};
use expiring_lock::LOCK_LIFE;
use flush_manager::{FlushEnd, flush_all};
use journal_rules::ClientState;
use keeper::Keeper;
use script_driver::{receive_all, tick};
use share_client::{SendFault, ShareClient};
use std::alloc::{AllocError, Global};

/// Who ends a run: seat 0, for no line.
const AT_END: By = By {
    seat: 0,
    line: None,
};

/// Three rounds suffice for all that a run may leave.
const MAX_ROUNDS: u32 = 3;

/// Ends a run of one driver that did its lines, whose sessions have these clients: the driver closes, and
/// what [`end_closed`] does. The only error is want of memory, or that the clock is at its end.
pub fn end_run<K: Keeper>(
    alloc: Global,
    book: &mut Book<K>,
    clients: &mut Vec<ShareClient>,
) -> Result<(), AllocError>
    requires drivers { book.old.drivers ≡ 0 }
    requires closed { closed book.old.journal ≡ [] }
    requires clients { AreClientsOf clients.old.items book.old.journal }
    ensures ends { OnOk result (Ends (length clients.old.items) (book.old.journal ++ entry_by 0 None (Closed 0) ∷ []) book.new.journal) }
    ensures clients { OnOk result (AreClientsOf clients.new.items book.new.journal) }
    ensures sessions { OnOk result (length clients.new.items ≡ length clients.old.items) }
    ensures goes_on { OnOk result (GoesOn K.tells book.old book.new) }
{
    book.close_driver(AT_END, 0);
    end_closed(alloc, book, clients)
}

/// Ends a run of which seat 0 may write for all clients, as it may once each driver has closed: every lock
/// expires, there are rounds as long as one is needed, and each document is flushed that needs it. The
/// only error is want of memory, or that the clock is at its end.
pub fn end_closed<K: Keeper>(
    alloc: Global,
    book: &mut Book<K>,
    clients: &mut Vec<ShareClient>,
) -> Result<(), AllocError>
    requires ends { MayEnd book.old.drivers book.old.journal }
    requires clients { AreClientsOf clients.old.items book.old.journal }
    ensures ends { OnOk result (Ends (length clients.old.items) book.old.journal book.new.journal) }
    ensures clients { OnOk result (AreClientsOf clients.new.items book.new.journal) }
    ensures sessions { OnOk result (length clients.new.items ≡ length clients.old.items) }
    ensures goes_on { OnOk result (GoesOn K.tells book.old book.new) }
{
    tick(book, AT_END, LOCK_LIFE)?;
    book.legal();
    go_rounds(alloc, book, clients)?;
    flush_needed(alloc, book)
}

// Goes at most three rounds, as long as one is needed.
fn go_rounds<K: Keeper>(
    alloc: Global,
    book: &mut Book<K>,
    clients: &mut Vec<ShareClient>,
) -> Result<(), AllocError>
    requires free { (doc : ℕ) → busy doc book.old.journal ≡ None }
    requires ends { MayEnd book.old.drivers book.old.journal }
    requires clients { AreClientsOf clients.old.items book.old.journal }
    ensures rounds { OnOk result (Rounds (length clients.old.items) 3 book.old.journal book.new.journal) }
    ensures free { OnOk result ((doc : ℕ) → busy doc book.new.journal ≡ None) }
    ensures clients { OnOk result (AreClientsOf clients.new.items book.new.journal) }
    ensures sessions { OnOk result (length clients.new.items ≡ length clients.old.items) }
    ensures rest { OnOk result (book.new ≡ with_journal book.old book.new.journal) }
{
    let mut left = MAX_ROUNDS;
    'rounds: while left > 0 {
        if !needs_round(book, clients) {
            return Ok(());
        }
        drain_all(alloc, book)?;
        catch_up_all(book, clients)?;
        left -= 1;
    }
    Ok(())
}

// Whether a further round is needed.
fn needs_round<K: Keeper>(book: &Book<K>, clients: &Vec<ShareClient>) -> bool
    requires { AreClientsOf clients.now.items book.now.journal }
    ensures { result ≡ needs_round_lem (length clients.now.items) book.now.journal }
{
    any_waits(book) || any_unfinished(book, clients)
}

// Whether an update waits for some document.
fn any_waits<K: Keeper>(book: &Book<K>) -> bool
    ensures { result ≡ any_below (λ doc. has_any (waiting doc book.now.journal)) (length (makings book.now.journal)) }
{
    let docs = book.docs();
    for doc in 0..docs {
        if book.waiting(doc) > 0 {
            return true;
        }
    }
    false
}

// Whether a client is unfinished.
fn any_unfinished<K: Keeper>(book: &Book<K>, clients: &Vec<ShareClient>) -> bool
    requires { AreClientsOf clients.now.items book.now.journal }
    ensures { result ≡ any_below (λ c. is_unfinished_lem c book.now.journal) (length clients.now.items) }
{
    for client in clients {
        if is_unfinished(book, client) {
            return true;
        }
    }
    false
}

// Whether a client is joined, and has mail, an operation in flight or something pending.
fn is_unfinished<K: Keeper>(book: &Book<K>, client: &ShareClient) -> bool
    requires { IsClientOf book.now.journal client.now }
    ensures { result ≡ is_unfinished_lem client.now.client book.now.journal }
{
    is_joined(client)
        && (book.has_mail(client.client())
            || client.flight().is_some()
            || !client.pending().comps().is_empty())
}

fn is_joined(client: &ShareClient) -> bool
    ensures { result ≡ is_joined_lem client.now.now.state }
{
    matches!(client.state(), ClientState::Joined)
}

// Drains each document in order.
fn drain_all<K: Keeper>(alloc: Global, book: &mut Book<K>) -> Result<(), AllocError>
    requires free { (doc : ℕ) → busy doc book.old.journal ≡ None }
    ensures drains { OnOk result (InOrder DrainsDry (length (makings book.old.journal)) book.old.journal book.new.journal) }
    ensures free { OnOk result ((doc : ℕ) → busy doc book.new.journal ≡ None) }
    ensures stay { OnOk result (StayAll book.old.journal book.new.journal) }
    ensures rest { OnOk result (book.new ≡ with_journal book.old book.new.journal) }
{
    let docs = book.docs();
    for doc in 0..docs {
        drain_dry(alloc, book, doc)?;
    }
    Ok(())
}

// Drains a document until nothing waits.
fn drain_dry<K: Keeper>(alloc: Global, book: &mut Book<K>, doc: u32) -> Result<(), AllocError>
    requires made { IsMade doc book.old.journal }
    requires free { (doc : ℕ) → busy doc book.old.journal ≡ None }
    ensures dry { OnOk result (DrainsDry doc book.old.journal book.new.journal) }
    ensures free { OnOk result ((doc : ℕ) → busy doc book.new.journal ≡ None) }
    ensures stay { OnOk result (StayAll book.old.journal book.new.journal) }
    ensures makings { OnOk result (makings book.new.journal ≡ makings book.old.journal) }
    ensures rest { OnOk result (book.new ≡ with_journal book.old book.new.journal) }
{
    let most = book.waiting(doc);
    let end = drain(alloc, book, AT_END, doc, most);
    book.legal();
    match end {
        DrainEnd::Done { .. } => Ok(()),
        DrainEnd::Memory { .. } => Err(AllocError),
        DrainEnd::Busy { .. } => unreachable!(),
    }
}

// Each client catches up, in order.
fn catch_up_all<K: Keeper>(
    book: &mut Book<K>,
    clients: &mut Vec<ShareClient>,
) -> Result<(), AllocError>
    requires free { (doc : ℕ) → busy doc book.old.journal ≡ None }
    requires ends { MayEnd book.old.drivers book.old.journal }
    requires clients { AreClientsOf clients.old.items book.old.journal }
    ensures catches { OnOk result (InOrder CatchesUp (length clients.old.items) book.old.journal book.new.journal) }
    ensures free { OnOk result ((doc : ℕ) → busy doc book.new.journal ≡ None) }
    ensures clients { OnOk result (AreClientsOf clients.new.items book.new.journal) }
    ensures sessions { OnOk result (length clients.new.items ≡ length clients.old.items) }
    ensures rest { OnOk result (book.new ≡ with_journal book.old book.new.journal) }
{
    for client in clients.iter_mut() {
        catch_up(book, client)?;
    }
    Ok(())
}

// A client that is joined gets all of its mail, and then sends.
fn catch_up<K: Keeper>(book: &mut Book<K>, client: &mut ShareClient) -> Result<(), AllocError>
    requires client { IsClientOf book.old.journal client.old }
    requires owner { MayWriteFor book.old.drivers book.old.journal 0 client.old.client }
    ensures catches { OnOk result (CatchesUp client.old.client book.old.journal book.new.journal) }
    ensures client { OnOk result (IsClientAfter book.new.journal client.old client.new) }
    ensures quiet { OnOk result (GoesQuietly client.old.client book.old.journal book.new.journal) }
    ensures rest { OnOk result (book.new ≡ with_journal book.old book.new.journal) }
{
    if !is_joined(client) {
        return Ok(());
    }
    receive_all(book, client, AT_END)?;
    send_own(book, client)
}

// A client sends again what is in flight, or else what is pending. It sends nothing where it isn't
// joined any more or has nothing to send.
fn send_own<K: Keeper>(book: &mut Book<K>, client: &mut ShareClient) -> Result<(), AllocError>
    requires client { IsClientOf book.old.journal client.old }
    requires owner { MayWriteFor book.old.drivers book.old.journal 0 client.old.client }
    ensures sends { OnOk result (book.new.journal ≡ book.old.journal ++ map at_end (sending_acts client.old.client book.old.journal)) }
    ensures client { IsClientAfter book.new.journal client.old client.new }
    ensures rest { OnOk result (book.new ≡ with_journal book.old book.new.journal) }
{
    if client.flight().is_some() {
        return unless_memory(book.resend(AT_END, client));
    }
    unless_memory(book.send(AT_END, client))
}

// That nothing was sent is no error; want of memory is.
fn unless_memory(sent: Result<u64, SendFault>) -> Result<(), AllocError>
    ensures { OnOk result (IfErr sent (λ f. told_send f ≡ Some f)) }
{
    match sent {
        Ok(_) => Ok(()),
        Err(SendFault::NotJoined | SendFault::InFlight | SendFault::Nothing) => Ok(()),
        Err(SendFault::Memory) => Err(AllocError),
    }
}

// Puts each document into the keeper whose version isn't there. That the keeper fails is noted, and no
// error.
fn flush_needed<K: Keeper>(alloc: Global, book: &mut Book<K>) -> Result<(), AllocError>
    requires free { (doc : ℕ) → busy doc book.old.journal ≡ None }
    ensures flushes { OnOk result (InOrder FlushesAtEnd (length (makings book.old.journal)) book.old.journal book.new.journal) }
    ensures stay { OnOk result (StayAll book.old.journal book.new.journal) }
    ensures goes_on { OnOk result (GoesOn K.tells book.old book.new) }
{
    let end = flush_all(alloc, book, AT_END);
    book.legal();
    match end {
        FlushEnd::Done => Ok(()),
        FlushEnd::Refused(_) => Ok(()),
        FlushEnd::Failed { .. } => Ok(()),
        FlushEnd::Memory => Err(AllocError),
    }
}
