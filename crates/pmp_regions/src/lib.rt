//! Physical memory protection: eight entries that say which addresses user mode may fetch from,
//! load from and store to (the privileged RISC-V manual, "Physical Memory Protection").
#![tactic(auto)]

ghost use Rattle.std.specs.Prelude.{◌≡◌, ◌↔◌, ◌+◌, ◌%◌, ◌^◌, ◌<◌, ◌≤◌, IfSome, IsTrue, None, length, replicate};
ghost use Rattle.std.specs.Prelude.{slice_set};
ghost use Rattle.std.specs.Bool.{OnTrue};
ghost use Rattle.tk_base.specs.Bus.{unless_denied};

use std::marker::Model;
use tk_base::{Access, Addr, Rule, Width};

/// How an entry's address register is read: field A of its configuration.
#[derive(Clone, Copy, Debug, PartialEq, Eq)]
pub enum Mode {
    /// The entry matches no address.
    Off,
    /// The top of a range, which begins at the address register of the entry below.
    Tor,
}

/// One entry: the configuration, whose lock bit is clear, and the address register.
#[derive(Clone, Copy, Debug, PartialEq, Eq)]
pub struct Entry {
    pub mode: Mode,
    pub read: bool,
    pub write: bool,
    pub execute: bool,
    /// An address divided by 4.
    pub address: u32,
}

/// So many addresses from one on.
#[derive(Clone, Copy)]
pub struct Extent {
    pub from: Addr,
    pub length: u32,
}

/// The protection registers. Contracts see the list of the eight entries.
///
/// Beside the entries two windows of addresses are kept, so that [`Pmp::check`] need not search all
/// entries for each access. They change no answer, and are empty until [`Pmp::settle`] finds them.
#[derive(Debug, Drop)]
pub struct Pmp {
    entries: [Entry; 8],
    /// Where every fetch and every load is permitted.
    executable: Window,
    /// Where every load and every store is permitted.
    writable: Window,
}

impl Model for Pmp {
    ghost use Rattle.std.specs.Prelude.{List};
    ghost use Rattle.pmp_regions.specs.declared.Entry.{Entry};

    ghost Value = { List Entry };

    ghost use Rattle.pmp_regions.specs.Windows.{ArePermitted};

    ghost view = { λ p. p.entries };

    ghost invariant = { λ p. ArePermitted p.entries p.executable p.writable };
}

impl Pmp {
    ghost use Rattle.pmp_regions.specs.Entries.{empty_entry, tor_entry, off_entry, bottom_word};
    ghost use Rattle.pmp_regions.specs.Check.{denied_by_registers, deciding, matches_any, matches_all};
    ghost use Rattle.pmp_regions.specs.Windows.{Permits, PermitsBetween, Decides, EndBy, end_of};
    ghost use Rattle.tk_base.specs.declared.access.Access.TheVariants.{Fetch, Load, Store};

    /// How many entries there are.
    pub const COUNT: usize = 8;

    /// All entries clear, so that user mode may access nothing.
    pub fn new() -> Pmp
        ensures { result ≡ replicate 8 empty_entry }
    {
        Pmp {
            entries: [Pmp::CLEARED; 8],
            executable: Window::EMPTY,
            writable: Window::EMPTY,
        }
    }

    /// The same registers again.
    pub fn copied(&self) -> Pmp
        ensures { result ≡ self.now }
    {
        Pmp {
            entries: self.entries,
            executable: self.executable.copied(),
            writable: self.writable.copied(),
        }
    }

    const CLEARED: Entry = Entry {
        mode: Mode::Off,
        read: false,
        write: false,
        execute: false,
        address: 0,
    };

    /// Makes an entry the top of a range that ends before an address, with its permission bits.
    pub fn set_tor(&mut self, entry: usize, top: Addr, r: bool, w: bool, x: bool)
        requires entry { entry < 8 }
        requires aligned { top % 4 ≡ 0 }
        ensures set { self.new ≡ slice_set self.old entry (tor_entry top r w x) }
        ensures eight { length self.new ≡ 8 }
    {
        let range = Entry {
            mode: Mode::Tor,
            read: r,
            write: w,
            execute: x,
            address: top / 4,
        };
        self.set(entry, range);
    }

    /// Turns an entry off. Its address is still the bottom of the entry above, if that is a range.
    pub fn set_off(&mut self, entry: usize, at: Addr)
        requires entry { entry < 8 }
        requires aligned { at % 4 ≡ 0 }
        ensures set { self.new ≡ slice_set self.old entry (off_entry at) }
        ensures eight { length self.new ≡ 8 }
    {
        let bottom = Entry {
            address: at / 4,
            ..Pmp::CLEARED
        };
        self.set(entry, bottom);
    }

    /// Clears an entry: it is off, and its address 0.
    pub fn clear(&mut self, entry: usize)
        requires { entry < 8 }
        ensures set { self.new ≡ slice_set self.old entry empty_entry }
        ensures eight { length self.new ≡ 8 }
    {
        self.set(entry, Pmp::CLEARED);
    }

    /// Sets an entry, and empties the windows, in which other accesses may be permitted now.
    fn set(&mut self, entry: usize, value: Entry)
        requires { entry < 8 }
        ensures set { self.new ≡ slice_set self.old entry value }
        ensures eight { length self.new ≡ 8 }
    {
        self.entries[entry] = value;
        self.executable = Window::EMPTY;
        self.writable = Window::EMPTY;
    }

    /// Finds the two windows: the range of entry 1, where that may be executed and read, and the range
    /// of entry 3, where that may be read and written. A range that a lower entry's range reaches
    /// into has no window.
    ///
    /// It is there for speed alone, since nearly every access of a process lies in one of the two, and
    /// changes no answer. To set or clear an entry empties both windows.
    pub fn settle(&mut self)
        ensures { self.new ≡ self.old }
    {
        let executable = self.executable_window();
        let writable = self.writable_window();
        self.executable = executable;
        self.writable = writable;
    }

    /// The range of entry 1, where it may be executed and read.
    #[tactic(auto, using(crate::proofs::Windows::permits_by))]
    fn executable_window(&self) -> Window
        ensures fetch { Permits self.now Access.Fetch result }
        ensures load { Permits self.now Access.Load result }
    {
        let entry = self.entries[1];
        if !entry.execute || !entry.read {
            return Window::EMPTY;
        }
        self.window(1)
    }

    /// The range of entry 3, where it may be read and written.
    #[tactic(auto, using(crate::proofs::Windows::permits_by))]
    fn writable_window(&self) -> Window
        ensures load { Permits self.now Access.Load result }
        ensures store { Permits self.now Access.Store result }
    {
        let entry = self.entries[3];
        if !entry.read || !entry.write {
            return Window::EMPTY;
        }
        self.window(3)
    }

    /// The addresses of an entry's range, in which the entry decides every access: none where it is
    /// off, where a lower entry's range reaches into it, or where an end is above all addresses.
    #[tactic(auto, using(crate::proofs::Windows::decides_range, crate::proofs::Windows::decides_none))]
    fn window(&self, entry: usize) -> Window
        requires { entry < 8 }
        ensures { Decides self.now entry result }
    {
        let range = self.entries[entry];
        if range.mode == Mode::Off || !self.is_clear_below(entry) {
            return Window::EMPTY;
        }
        let (Some(from), Some(to)) = (
            self.bottom(entry).checked_mul(4),
            range.address.checked_mul(4),
        ) else {
            return Window::EMPTY;
        };
        if to < from {
            return Window::EMPTY;
        }
        Window::between(from, to)
    }

    /// Whether the ranges of all lower entries end at or below the bottom of an entry's range.
    fn is_clear_below(&self, entry: usize) -> bool
        requires { entry < 8 }
        ensures { IsTrue result ↔ EndBy self.now entry (bottom_word self.now entry) }
    {
        let bottom = self.bottom(entry);
        for lower in 0..entry {
            let range = self.entries[lower];
            if range.mode == Mode::Tor && bottom < range.address {
                return false;
            }
        }
        true
    }

    /// Whether user mode may make an access. Otherwise the rule is [`Rule::NoRegion`] where no
    /// entry matches any of the bytes or the lowest that does matches only some of them, and else
    /// that of the permission bit which that entry lacks.
    ///
    /// An access in a window of its kind needs no search.
    #[inline(always)]
    pub fn check(&self, access: Access, at: Addr, width: Width) -> Result<(), Rule>
        ensures { result ≡ unless_denied (denied_by_registers self.now access at width) tt }
    {
        if self.is_in_window(access, at, width) {
            return Ok(());
        }
        self.search(access, at, width)
    }

    /// Addresses in which every fetch and every load is permitted. Elsewhere one may be permitted nevertheless.
    #[inline(always)]
    pub fn executable(&self) -> Extent
        ensures fetch { PermitsBetween self.now Fetch result.from (end_of result) }
        ensures load { PermitsBetween self.now Load result.from (end_of result) }
        ensures ends { end_of result ≤ 2 ^ 32 }
    {
        Extent {
            from: self.executable.from,
            length: self.executable.length,
        }
    }

    /// Addresses in which every load and every store is permitted. Elsewhere one may be permitted nevertheless.
    #[inline(always)]
    pub fn writable(&self) -> Extent
        ensures load { PermitsBetween self.now Load result.from (end_of result) }
        ensures store { PermitsBetween self.now Store result.from (end_of result) }
        ensures ends { end_of result ≤ 2 ^ 32 }
    {
        Extent {
            from: self.writable.from,
            length: self.writable.length,
        }
    }

    /// Whether an access lies in the window where every load and every store is permitted. Where it does
    /// not, it may be permitted nevertheless.
    #[inline(always)]
    pub fn holds_data(&self, at: Addr, width: Width) -> bool
        ensures load { OnTrue result (denied_by_registers self.now Load at width ≡ None) }
        ensures store { OnTrue result (denied_by_registers self.now Store at width ≡ None) }
    {
        self.writable.holds(at, width)
    }

    /// Whether an access lies in a window where its kind is permitted.
    #[inline(always)]
    fn is_in_window(&self, access: Access, at: Addr, width: Width) -> bool
        ensures { OnTrue result (denied_by_registers self.now access at width ≡ None) }
    {
        match access {
            Access::Fetch => self.executable.holds(at, width),
            Access::Load => self.writable.holds(at, width) || self.executable.holds(at, width),
            Access::Store => self.writable.holds(at, width),
        }
    }

    /// The answer of [`Pmp::check`] by the entries alone.
    #[cold]
    #[inline(never)]
    fn search(&self, access: Access, at: Addr, width: Width) -> Result<(), Rule>
        ensures { result ≡ unless_denied (denied_by_registers self.now access at width) tt }
    {
        let span = Span::of(at, width);
        let Some(entry) = self.deciding(&span) else {
            return Err(Rule::NoRegion);
        };
        if !self.matches_all(entry, &span) {
            return Err(Rule::NoRegion);
        }
        let entry = self.entries[entry];
        match access {
            Access::Fetch if !entry.execute => Err(Rule::NoExecute),
            Access::Load if !entry.read => Err(Rule::NoRead),
            Access::Store if !entry.write => Err(Rule::NoWrite),
            _ => Ok(()),
        }
    }

    /// The lowest entry that matches any byte of an access.
    fn deciding(&self, span: &Span) -> Option<usize>
        ensures entry { result ≡ deciding self.now span.now.at span.now.width }
        ensures below { IfSome result (λ i. i < 8) }
    {
        for entry in 0..Pmp::COUNT {
            if self.matches_any(entry, span) {
                return Some(entry);
            }
        }
        None
    }

    #[tactic(auto, using(crate::proofs::Words::any_of_words))]
    fn matches_any(&self, entry: usize, span: &Span) -> bool
        requires { entry < 8 }
        ensures { result ≡ matches_any self.now entry span.now.at span.now.width }
    {
        let top = self.entries[entry].address;
        let bottom = self.bottom(entry);
        self.entries[entry].mode == Mode::Tor
            && bottom < top
            && bottom <= span.last
            && span.first < top
    }

    #[tactic(auto, using(crate::proofs::Words::all_of_words))]
    fn matches_all(&self, entry: usize, span: &Span) -> bool
        requires { entry < 8 }
        ensures { result ≡ matches_all self.now entry span.now.at span.now.width }
    {
        self.entries[entry].mode == Mode::Tor
            && self.bottom(entry) <= span.first
            && span.last < self.entries[entry].address
    }

    /// Where an entry's range begins, divided by 4.
    fn bottom(&self, entry: usize) -> u32
        requires { entry < 8 }
        ensures { result ≡ bottom_word self.now entry }
    {
        if entry == 0 {
            0
        } else {
            self.entries[entry - 1].address
        }
    }
}

/// So many addresses from one on. One subtraction and one comparison tell whether an access lies in them.
/// Contracts see its two ends.
#[derive(Debug, Drop)]
struct Window {
    from: Addr,
    length: u32,
}

impl Model for Window {
    ghost use Rattle.std.specs.Prelude.{◌+◌, ◌^◌, ◌≤◌};
    ghost use Rattle.pmp_regions.specs.Windows.{Ends};

    ghost Value = { Ends };

    ghost view = { λ w. record { from = w.from; to = w.from + w.length } };

    ghost invariant = { λ w. w.from + w.length ≤ 2 ^ 32 };
}

impl Window {
    ghost use Rattle.pmp_regions.specs.Windows.{window_holds};

    const EMPTY: Window = Window { from: 0, length: 0 };

    /// The addresses from one on up to but not including an end.
    fn between(from: Addr, to: Addr) -> Window
        requires { from ≤ to }
        ensures { result ≡ record { from = from; to = to } }
    {
        Window {
            from,
            length: to - from,
        }
    }

    /// The same addresses again.
    fn copied(&self) -> Window
        ensures { result ≡ self.now }
    {
        Window {
            from: self.from,
            length: self.length,
        }
    }

    /// Whether all bytes of an access lie in the window.
    #[inline(always)]
    #[tactic(auto, using(crate::proofs::Windows::place_tells))]
    fn holds(&self, at: Addr, width: Width) -> bool
        ensures { result ≡ window_holds self.now at width }
    {
        u64::from(at.wrapping_sub(self.from)) + u64::from(width.bytes()) <= u64::from(self.length)
    }
}

/// Which bytes an access reaches, and the addresses of the first and the last of them divided by 4, as the
/// address registers hold them. Contracts see its address and its width.
#[derive(Drop)]
struct Span {
    at: Addr,
    width: Width,
    first: u32,
    last: u32,
}

impl Model for Span {
    ghost use Rattle.pmp_regions.specs.Spans.{Reach, IsSpan};

    ghost Value = { Reach };

    ghost view = { λ s. record { at = s.at; width = s.width } };

    ghost invariant = { IsSpan };
}

impl Span {
    fn of(at: Addr, width: Width) -> Span
        ensures { result ≡ record { at = at; width = width } }
    {
        let end = u64::from(at) + u64::from(width.bytes());
        Span {
            at,
            width,
            first: at / 4,
            last: ((end - 1) / 4) as u32,
        }
    }
}
