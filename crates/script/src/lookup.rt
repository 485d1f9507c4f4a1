ghost use Rattle.std.specs.Prelude.{◌≡◌};
ghost use Rattle.ground.specs.Names.{named, texts, built_in_list, plain_name_list, class_name_list};
ghost use Rattle.script.specs.Scopes.{in_scope};

use crate::scope::Scope;
use crate::source::Source;
use ground::name::Name;

// Is the word one of the names?
fn among(names: &[Name], word: &[u8]) -> bool
    ensures { result ≡ named (texts names.now) word.now }
{
    names.iter().any(|name| name.is(word))
}

fn is_plain(word: &[u8]) -> bool
    ensures { result ≡ named plain_name_list word.now }
{
    matches!(word, b"not" | b"nil" | b"cons")
}

fn is_classed(word: &[u8]) -> bool
    ensures { result ≡ named class_name_list word.now }
{
    matches!(word, b"add" | b"neg" | b"less" | b"equal" | b"hold")
}

// Is the word a built-in name?
fn is_built_in(word: &[u8], classes: bool) -> bool
    ensures { result ≡ named (built_in_list classes) word.now }
{
    (classes && is_classed(word)) || is_plain(word)
}

// Is the word a name that is bound, defined or built in?
pub(crate) fn is_bound(word: &[u8], scope: &Scope, source: &Source) -> bool
    ensures { result ≡ named (in_scope scope.now.items source.now) word.now }
{
    among(scope.as_slice(), word)
        || among(source.defined, word)
        || is_built_in(word, source.classes)
}
