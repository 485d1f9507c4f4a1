ghost use Rattle.std.specs.Prelude.{true, false};
ghost use Rattle.ground.specs.Belongs.{Env, built_in};

// An environment: names, each with a set of ground types. A law about every environment is stated of every type with this trait.
pub trait Environment {
    ghost names: { Env };
}

// The built-in names without classes.
#[derive(Clone, Copy)]
pub struct Plain;

impl Environment for Plain {
    ghost names = { built_in false };
}

// The built-in names with the four classes.
#[derive(Clone, Copy)]
pub struct Classed;

impl Environment for Classed {
    ghost names = { built_in true };
}
