ghost use Rattle.std.specs.Prelude.{◌≡◌, ℕ};

// What is refused, by the number that it is known by and the layer that found it.
pub trait Refusal {
    ghost number: { Self → ℕ };

    ghost layer: { Self → ℕ };

    fn number(&self) -> u8
        ensures { result ≡ number self.now };

    fn layer(&self) -> u8
        ensures { result ≡ layer self.now };
}
