// Why a section AG declares no attribution.
use ck_base::Kind;
use value_store::Name;

/// Why a section AG declares no attribution.
#[derive(Drop)]
pub enum AgFault {
    /// The first fault of the section: its line and its kind.
    Spec(u32, Kind),
    /// The family of the root has this inherited attribute, the first one of its.
    RootInherits(u32),
    /// A second line gives the place an equation of the type or family so called.
    TwoEquations { ty: Name, target: Name },
    /// The type so called has no equation for the place.
    NoEquation { ty: Name, target: Name },
    NoMemory,
}
