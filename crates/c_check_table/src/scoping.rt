// What is declared as a text goes on.

ghost use Rattle.std.specs.Prelude.{◌≡◌, slice_get};
ghost use Rattle.c_check_table.specs.Tally.{declare_number, declare_tag};

use c_check_scope::scope::{Scope, Tag};
use lu_base::Name;

fn declare_number(scope: &mut Scope, number: usize)
    ensures scope { scope.new ≡ declare_number scope.old (slice_get scope.old.tags number) number }
    ensures types { scope.new.types ≡ scope.old.types }
    ensures names { scope.new.names ≡ scope.old.names }
{
    if let Some(Some(tag)) = scope.tags.get(number) {
        let declared = Tag {
            kind: tag.kind,
            number: tag.number,
            is_declared: true,
        };
        scope.tags.set(number, Some(declared));
    }
}

/// The struct or union of this tag is declared from here on.
#[tactic(auto, unfolding(crate::specs::Tally::declare_tag))]
pub fn declare_tag(scope: &mut Scope, name: &Name)
    ensures scope { scope.new ≡ declare_tag scope.old name.now }
    ensures types { scope.new.types ≡ scope.old.types }
    ensures names { scope.new.names ≡ scope.old.names }
{
    if let Some(number) = scope.names.number_of(name) {
        declare_number(scope, number);
    }
}
