// A declaration of a text.

ghost use Rattle.std.specs.Prelude.{◌≡◌, IfOk};
ghost use Rattle.c_ast.specs.Trees.{declaration, declarations};
ghost use Rattle.c_check_decl.specs.Globals.{types_alone};
ghost use Rattle.c_check.specs.Declarations as spec;

use crate::definitions::{declared_definition, declared_prototype};
use crate::objects::{declared_global, declared_record};
use crate::standing::{Functions, Standing};
use c_ast::decl::Decl;
use c_check_scope::checked::Checked;
use src_tree::program::Program;
use std::alloc::{AllocError, Global};

/// What stands after a declaration of a text, or the rules that it breaks.
#[tactic(auto, unfolding(crate::specs::Declarations::declared))]
pub fn declared(
    alloc: Global,
    types: &Program,
    text: &[Decl],
    functions: &Functions,
    standing: Standing,
    decl: &Decl,
) -> Result<Checked<Standing>, AllocError>
    requires { types.now ≡ types_alone standing.scope.types }
    ensures standing { IfOk result (λ s. s ≡ spec.declared (declarations text.now) functions.now standing (declaration decl.now)) }
    ensures types { IfOk result (λ s. IfOk s (λ s. s.scope.types ≡ standing.scope.types)) }
{
    match decl {
        Decl::Record(kind, name, fields) => {
            declared_record(alloc, types, standing, *kind, name, fields.as_slice())
        }
        Decl::Global(named, init) => declared_global(
            alloc, types, functions, standing, named, init,
        ),
        Decl::Prototype(answer, name, params) => {
            declared_prototype(
                alloc,
                text,
                functions,
                standing,
                answer,
                name,
                params.as_slice(),
            )
        }
        Decl::Function(answer, name, params, body) => {
            declared_definition(
                alloc,
                standing,
                answer,
                name,
                params.as_slice(),
                body.as_slice(),
            )
        }
    }
}
