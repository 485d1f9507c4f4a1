ghost use Rattle.std.specs.Prelude.{◌≡◌, Ok as Fine, Err as Refused, MatchResult};
ghost use Rattle.system.specs.declared.layer_fault.LayerFault.TheVariants.{Own};

use system::fault::ClassFault;
use system::layer_fault::LayerFault;

// What the layer did of itself, or its refusal. Beside `From<F>` there can be no `From<ClassFault>`, and `map_err(LayerFault::Own)` gets no proof.
pub(crate) fn own<T, F>(outcome: Result<T, ClassFault>) -> Result<T, LayerFault<F>>
    ensures { MatchResult outcome (λ x. result ≡ Fine x) (λ f. result ≡ Refused (Own f)) }
{
    match outcome {
        Ok(value) => Ok(value),
        Err(fault) => Err(LayerFault::Own(fault)),
    }
}
