//! What a load, a store or a fetch reaches, or why it is cut off.

ghost use Rattle.std.specs.Prelude.{◌≡◌};
ghost use Rattle.n2_board.specs.Access as spec;

use crate::classes::Class;
use crate::layout::Layout;
use crate::places::Place;
use n2_parts::Part;
use n2_word::{Width, line_of};

/// How a load or store goes: through the data cache, or past it.
#[derive(Clone, Copy, Debug, PartialEq, Eq)]
pub enum Route {
    Cached,
    Bypassing,
}

/// Whether an access loads or stores.
#[derive(Clone, Copy, Debug, PartialEq, Eq)]
pub enum Direction {
    Load,
    Store,
}

/// What a load or store reaches: memory, or a word of a device by its number.
#[derive(Clone, Copy, Debug, PartialEq, Eq)]
pub enum Target {
    Memory,
    Device { part: Part, offset: u32 },
}

/// Why an access is cut off: it strays, or it is refused as separate.
#[derive(Clone, Copy, Debug, PartialEq, Eq)]
pub enum Violation {
    Stray,
    Separate,
}

impl Route {
    /// The route of a load or store: past the cache where its instruction says so or its address has
    /// bit 31 (Nios II Processor Reference Guide, "Bypassing Cache").
    #[inline(always)]
    pub fn of(address: u32, io: bool) -> Route
        ensures { result ≡ spec.route_of address io }
    {
        if io || address >= 0x8000_0000 {
            Route::Bypassing
        } else {
            Route::Cached
        }
    }

    #[inline(always)]
    fn is_cached(self) -> bool
        ensures { result ≡ spec.is_cached self }
    {
        match self {
            Route::Cached => true,
            Route::Bypassing => false,
        }
    }
}

#[inline(always)]
fn allows(class: Class, core: u32, route: Route, direction: Direction) -> bool
    ensures { result ≡ spec.allows class core route direction }
{
    match class {
        Class::Code => match direction {
            Direction::Load => true,
            Direction::Store => false,
        },
        Class::Private(owner) => route.is_cached() && owner == core,
        Class::Mutex(_) => route.is_cached(),
        Class::Passed(_) => route.is_cached(),
        Class::Uncached => !route.is_cached(),
        Class::Absent => false,
    }
}

fn device_target(part: Part, offset: u32, width: Width, route: Route) -> Result<Target, Violation>
    ensures { result ≡ spec.device_target part offset width route }
{
    match width {
        Width::Byte | Width::Half => Err(Violation::Stray),
        Width::Word => match route {
            Route::Cached => Err(Violation::Separate),
            Route::Bypassing => Ok(Target::Device { part, offset }),
        },
    }
}

impl Layout {
    /// What a core's load or store reaches, or why it is cut off: it strays where it names nothing,
    /// or less than a word of a device; it is separate where its line's class does not allow it to
    /// that core, or where it goes to a device through the cache. An address of memory takes one
    /// look in a table.
    #[inline(always)]
    #[tactic(auto, unfolding(crate::specs::Access::data_target))]
    pub fn data_target(
        &self,
        core: u32,
        address: u32,
        width: Width,
        route: Route,
        direction: Direction,
    ) -> Result<Target, Violation>
        ensures { result ≡ spec.data_target self.now core address width route direction }
    {
        match self.memory_class(line_of(address)) {
            Some(class) => {
                if allows(class, core, route, direction) {
                    Ok(Target::Memory)
                } else {
                    Err(Violation::Separate)
                }
            }
            // No memory has the line, so the place is none of a memory.
            None => match self.place_searched(address & 0x7fff_ffff) {
                Place::Device { part, offset } => device_target(part, offset, width, route),
                Place::Memory | Place::Nothing => Err(Violation::Stray),
            },
        }
    }

    /// Why a fetch is cut off, if it is: it strays where its address has bit 31 set or is in no
    /// memory, and is separate where its line is not code.
    #[inline(always)]
    #[tactic(auto, unfolding(crate::specs::Access::fetch_violation))]
    pub fn fetch_violation(&self, address: u32) -> Option<Violation>
        ensures { result ≡ spec.fetch_violation self.now address }
    {
        if address >= 0x8000_0000 {
            return Some(Violation::Stray);
        }
        match self.memory_class(line_of(address)) {
            Some(Class::Code) => None,
            Some(_) => Some(Violation::Separate),
            None => Some(Violation::Stray),
        }
    }
}
