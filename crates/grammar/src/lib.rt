// Reading, with its promise in the words of the grammar.
#![tactic(auto)]

ghost use Rattle.script.specs.Settings.{setting_of};
ghost use Rattle.grammar.specs.Statements.{Told};

use script::fault::ReadFault;
use script::reader::Reader;
use script::source::Source;

// Reads a script. It is accepted exactly where it is one by the grammar, with all rules and limits kept, and then the reader keeps the
// nodes of the one form that it says. A refusal names the first place from the left where no continuation makes a script, or the rule
// that is broken there.
pub fn read_script(reader: &mut Reader, source: &Source) -> Result<(), ReadFault>
    ensures { Told (setting_of source.now) source.now.text.now reader.new.nodes.items result }
{
    reader.read(source)
}
