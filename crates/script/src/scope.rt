use arrayvec::ArrayVec;
use ground::name::Name;

// The names bound by the forms around the place that is read, the innermost last. Brackets nest at most 32 deep, and each binds at
// most one name.
pub(crate) type Scope = ArrayVec<Name, 32>;
