ghost use Rattle.std.specs.Prelude.{◌≡◌, ◌+◌, ◌≤◌, length};
ghost use Rattle.words.specs.Leaves.{leaf_of};
ghost use Rattle.script.specs.Reads.{leaf_form};
ghost use Rattle.script.specs.Tokens.{bytes_at};
ghost use Rattle.script.specs.Scopes.{in_scope};
ghost use Rattle.script.specs.Came.{CameLeaf};

use crate::fault::{ReadFault, Reason};
use crate::lookup::is_bound;
use crate::node::Item;
use crate::scope::Scope;
use crate::source::Source;
use crate::token::word_of;
use ground::name::Name;
use ground::place::Place;
use words::leaf::Leaf;

// The form that the word at the place is by itself.
pub(crate) fn read_leaf(scope: &Scope, source: &Source, place: Place) -> Result<Item, ReadFault>
    requires { place.start + place.length ≤ length source.now.text.now }
    ensures { CameLeaf place result (leaf_form (in_scope scope.now.items source.now) place (bytes_at source.now.text.now place) (leaf_of (bytes_at source.now.text.now place))) }
{
    let word = word_of(source.text, place);
    match Leaf::of(word) {
        Ok(Leaf::Truth(b)) => Ok(Item::Truth(b)),
        Ok(Leaf::Number(number)) => Ok(Item::from(number)),
        Ok(Leaf::Name) => {
            if !is_bound(word, scope, source) {
                return Err(Reason::UnboundName.at(place));
            }
            match Name::of(word) {
                Some(name) => Ok(Item::Name(name)),
                None => unreachable!(),
            }
        }
        Err(why) => Err(Reason::from(why).at(place)),
    }
}
