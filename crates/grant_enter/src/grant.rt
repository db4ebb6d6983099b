//! The grants of a driver.
ghost use Rattle.std.specs.Prelude.{◌≡◌, Some};
ghost use Rattle.grant_values.specs.Drivers.{counting, counts_of, driver_of};
ghost use Rattle.process_model.specs.Handed.{own_entering};
ghost use Rattle.grant_enter.specs.Homes.{ChangesOnly, own_of};
ghost use Rattle.process_seat.specs.Visits.{Asks, Enters, IsCounted, Peeks, Visits};
ghost use Rattle.process_seat.specs.Visits.{seen_by};

use crate::home::Home;
use grant_values::GrantValue;
use process_seat::{EnterError, Stale, Unvisited, Visit, enter_seat, peek_seat, visit_seat};
use std::marker::{Model, PhantomData};
use tk_base::{Counts, ProcessId};

/// The grants that processes keep for one driver (Levy et al., SOSP 2017, section 4): the type of
/// their value, and how many upcalls and read-only, read-write and readable buffers they have.
/// Contracts see the driver's number and these counts.
#[derive(Drop)]
pub struct Grant<
    T: GrantValue,
    const UP: usize,
    const RO: usize,
    const RW: usize,
    const UR: usize,
> {
    driver: u32,
    counts: Counts,
    value: PhantomData<T>,
}

impl<T: GrantValue, const UP: usize, const RO: usize, const RW: usize, const UR: usize> Model
    for Grant<T, UP, RO, RW, UR> {
    ghost use Rattle.std.specs.Prelude.{◌≡◌};
    ghost use Rattle.grant_values.specs.Drivers.{counting};
    ghost use Rattle.process_seat.specs.Visits.{GrantsOf, IsCounted, grants_of};

    ghost Value = { GrantsOf };

    ghost view = { λ grant. grants_of grant.driver grant.counts };

    ghost invariant = { λ grant. (grant.counts ≡ counting UP RO RW UR T.SIZE)
        × IsCounted T.driver grant.driver grant.counts T.SIZE };
}

impl<T: GrantValue, const UP: usize, const RO: usize, const RW: usize, const UR: usize> Grant<
    T,
    UP,
    RO,
    RW,
    UR,
> {
    /// The grants of a driver, whose value and whose counts are those of the type.
    pub fn of(driver: u32) -> Grant<T, UP, RO, RW, UR>
        requires value { driver_of driver ≡ Some T.driver }
        requires counts { counts_of driver ≡ Some (counting UP RO RW UR T.SIZE) }
        ensures driver { result.driver ≡ driver }
        ensures counts { result.counts ≡ counting UP RO RW UR T.SIZE }
    {
        Grant {
            driver,
            counts: Counts {
                upcalls: UP as u32,
                ro: RO as u32,
                rw: RW as u32,
                ur: UR as u32,
                value: T::SIZE,
            },
            value: PhantomData,
        }
    }

    /// As always, the counts are those of the type, and of the driver. The function does nothing.
    pub fn are_counted(&self)
        ensures counts { self.now.counts ≡ counting UP RO RW UR T.SIZE }
        ensures known { IsCounted T.driver self.now.driver self.now.counts T.SIZE }
    {
        let _counts = self.counts;
    }

    /// Has a visitor do what its own contract says with the value that a process keeps for the
    /// driver, or at first use with a fresh one, and keeps what it leaves; or refuses, and nothing
    /// changes. What the process keeps is what the last visit left. All else of the process, and
    /// all of another slot, stays.
    ///
    /// It is stale exactly where the process has ended or is in another life, or none was placed in
    /// the slot; otherwise there is no room exactly where the driver is not entered and the kernel
    /// break less the cost of its grant is below the break.
    pub fn enter<V: Visit<T> + Drop>(
        &self,
        home: &mut Home,
        id: ProcessId,
        visitor: V,
    ) -> Result<V::Answer, EnterError>
        requires asks { Asks T.kept (V.asks visitor) (seen_by self.now home.old.flash
            (own_entering self.now.driver (own_of home.old id.slot))) }
        ensures enters { Enters
            (record { grants = self.now; keeps = T.kept; visitor = visitor; leaves = V.leaves })
            (record { life = id.life; flash = home.old.flash; own = own_of home.old id.slot })
            result (own_of home.new id.slot) }
        ensures rest { ChangesOnly id.slot home.old home.new }
    {
        if !home.is_there(&id) {
            return Err(EnterError::Stale);
        }
        let seat = &mut home.seats[id.slot.index()];
        enter_seat::<T, V>(&mut home.memory, seat, self.driver, self.counts, visitor)
    }

    /// Has a visitor do what its own contract says with the value that a process keeps for the
    /// driver, as [`Grant::enter`], where it keeps one; or hands the visitor back, as it was given,
    /// and nothing changes. It is handed back exactly where there is nothing to visit: the process
    /// has not entered the driver in this life, or it is gone, that is, it has ended or is in
    /// another life, or none was placed in the slot.
    pub fn visit<V: Visit<T> + Drop>(
        &self,
        home: &mut Home,
        id: ProcessId,
        visitor: V,
    ) -> Result<V::Answer, Unvisited<V>>
        requires asks { Asks T.kept (V.asks visitor)
            (seen_by self.now home.old.flash (own_of home.old id.slot)) }
        ensures visits { Visits
            (record { grants = self.now; keeps = T.kept; visitor = visitor; leaves = V.leaves })
            (record { life = id.life; flash = home.old.flash; own = own_of home.old id.slot })
            result (own_of home.new id.slot) }
        ensures rest { ChangesOnly id.slot home.old home.new }
    {
        if !home.is_there(&id) {
            return Err(Unvisited::Gone(visitor));
        }
        let visited = &mut home.seats[id.slot.index()];
        visit_seat::<T, V>(&mut home.memory, visited, self.driver, self.counts, visitor)
    }

    /// The value that a process keeps for the driver: None exactly where it has not entered the
    /// driver in this life, and stale exactly where it has ended or is in another life, or none was
    /// placed in the slot.
    pub fn peek(&self, home: &Home, id: ProcessId) -> Result<Option<T>, Stale>
        ensures { Peeks self.now T.kept
            (record { life = id.life; flash = home.now.flash; own = own_of home.now id.slot })
            result }
    {
        if !home.is_there(&id) {
            return Err(Stale);
        }
        let seat = &home.seats[id.slot.index()];
        Ok(peek_seat::<T>(&home.memory, seat, self.driver, self.counts))
    }
}
