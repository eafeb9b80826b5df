//! The lock, with its calls. None takes memory.

ghost use Rattle.std.specs.Prelude.{◌≡◌, ◌≢◌, ◌+◌, ◌^◌, ◌<◌, ◌≤◌, ◌↔◌, true, false, IsOk, IsErr, IsErrOf, IsSome, IfSome, IfOk, IfErr, OnOk, OnErr};
ghost use Rattle.expiring_lock.specs.Locks.{IsCurrent, IsEnded, IsUnexpired};
ghost use Rattle.expiring_lock.specs.declared.lock.TheConstants.{LOCK_LIFE};
ghost use Rattle.expiring_lock.specs.declared.refusal.Stale.TheVariants.{Other, Ended};

use crate::refusal::{Busy, Stale};
use std::marker::Model;

/// How long a lock is given for, in milliseconds: thirty seconds, as in Overleaf's
/// document-updater.
pub const LOCK_LIFE: u64 = 30_000;

/// A lock that may be taken over once it has expired. Its tokens rise, and each call names the one
/// that it acts under, so that a seat that lost the lock is found out. Until another takes it over,
/// an expired lock still serves its holder.
///
/// Times are in milliseconds of the script's clock.
#[derive(Debug, Drop)]
pub struct Lock {
    last: u64,
    until: u64,
    seat: u32,
    held: bool,
}

impl Model for Lock {
    ghost use Rattle.std.specs.Prelude.{◌<◌, IsTrue};
    ghost use Rattle.expiring_lock.specs.Locks.{LockState};

    ghost Value = { LockState };

    ghost view = { λ lock. record { last = lock.last; until = lock.until; seat = lock.seat; held = lock.held } };

    ghost invariant = { λ lock. IsTrue lock.held → 0 < lock.last };
}

impl Lock {
    /// A free lock, of which no token was given.
    pub fn new() -> Lock
        ensures { result ≡ record { last = 0; until = 0; seat = 0; held = false } }
    {
        Lock {
            last: 0,
            until: 0,
            seat: 0,
            held: false,
        }
    }

    /// What keeps others out at `now`: the token that is held and hasn't expired, or `None`, where
    /// [`Lock::take`] would give the lock.
    pub fn busy(&self, now: u64) -> Option<Busy>
        ensures busy { IsSome result ↔ IsUnexpired self.now now }
        ensures told { IfSome result
            (λ busy. busy ≡ record { token = self.now.last; until = self.now.until }) }
    {
        if self.held && now < self.until {
            return Some(Busy {
                token: self.last,
                until: self.until,
            });
        }
        None
    }

    /// Gives the lock to `seat` under the token `next`, and answers when it expires: [`LOCK_LIFE`]
    /// after `now`. A lock that was let go or has expired may be taken. [`Busy`] leaves it as it
    /// was.
    pub fn take(&mut self, now: u64, next: u64, seat: u32) -> Result<u64, Busy>
        requires now { now ≤ 2 ^ 62 }
        requires next { self.old.last < next }
        ensures until { IfOk result (λ until. until ≡ now + LOCK_LIFE) }
        ensures taken { OnOk result
            (self.new ≡ record { last = next; until = now + LOCK_LIFE; seat = seat; held = true }) }
        ensures busy { IsErr result ↔ IsUnexpired self.old now }
        ensures told { IfErr result
            (λ busy. busy ≡ record { token = self.old.last; until = self.old.until }) }
        ensures kept { OnErr result (self.new ≡ self.old) }
    {
        if let Some(busy) = self.busy(now) {
            return Err(busy);
        }
        let until = now + LOCK_LIFE;
        *self = Lock {
            last: next,
            until,
            seat,
            held: true,
        };
        Ok(until)
    }

    /// Whether `token` still stands for the lock, expired or not. [`Stale::Other`] tells the last
    /// token given, 0 before the first, where it's another; [`Stale::Ended`] comes where `token` is
    /// the last one and was let go, or where none was given and it's 0.
    pub fn check(&self, token: u64) -> Result<(), Stale>
        ensures current { IsOk result ↔ IsCurrent self.now token }
        ensures other { IsErrOf result (Other self.now.last) ↔ (token ≢ self.now.last) }
        ensures ended { IsErrOf result Ended ↔ IsEnded self.now token }
        ensures given { OnOk result (0 < token) }
    {
        if token != self.last {
            Err(Stale::Other(self.last))
        } else if self.held {
            Ok(())
        } else {
            Err(Stale::Ended)
        }
    }

    /// Lets the lock go, which is free then. [`Stale`] comes as in [`Lock::check`], and leaves the
    /// lock as it was.
    pub fn let_go(&mut self, token: u64) -> Result<(), Stale>
        ensures current { IsOk result ↔ IsCurrent self.old token }
        ensures other { IsErrOf result (Other self.old.last) ↔ (token ≢ self.old.last) }
        ensures ended { IsErrOf result Ended ↔ IsEnded self.old token }
        ensures given { OnOk result (0 < token) }
        ensures free { OnOk result (self.new ≡ record self.old { held = false }) }
        ensures kept { OnErr result (self.new ≡ self.old) }
    {
        self.check(token)?;
        self.held = false;
        Ok(())
    }
}
