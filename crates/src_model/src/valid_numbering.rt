// The locals that statements declare and the sites at which they allocate, in the order of the text.

ghost use Rattle.std.specs.Prelude.{◌≡◌, ◌+◌, if◌then◌else◌, [], ◌∷◌, Some, None, count_by, nat_eq, nat_lt, length, ◌≤◌};
ghost use Rattle.std.specs.List.{list_all};
ghost use Rattle.src_meaning.specs.ValidNumbering as spec;

use src_meaning::validity::Next;
use src_tree::program::{Function, Site};
use src_tree::stmt::{Callee, Rhs, TypedStmt};

/// The sites of a program, and the number of the function whose statements are read.
#[derive(Clone, Copy)]
pub struct Sites<'a> {
    pub all: &'a [Site],
    pub function: u32,
}

fn after_local(next: Option<Next>, number: u32) -> Option<Next>
    ensures { (sites : _) (f : _) → result ≡ spec.after_marks sites f next (spec.local number ∷ []) }
{
    match next {
        Some(next) if next.local == u64::from(number) => Some(Next {
            local: u64::from(number) + 1,
            ordinal: next.ordinal,
        }),
        _ => None,
    }
}

fn successor(number: u32) -> u64
    ensures { result ≡ number + 1 }
{
    u64::from(number) + 1
}

fn is_site(function: u32, ordinal: u64, site: &Site) -> bool
    ensures { result ≡ spec.is_site function ordinal site.now }
{
    site.function == function && u64::from(site.ordinal) == ordinal
}

fn after_numbered(function: u32, next: Next, site: &Site) -> Option<Next>
    ensures { result ≡ (if spec.is_site function next.ordinal site.now then Some (record { local = next.local; ordinal = next.ordinal + 1 }) else None) }
{
    if !is_site(function, next.ordinal, site) {
        return None;
    }
    Some(Next {
        local: next.local,
        ordinal: successor(site.ordinal),
    })
}

fn after_known(sites: &Sites, next: Next, number: u32) -> Option<Next>
    ensures { result ≡ spec.after_mark sites.now.all.now sites.now.function next (spec.site number) }
{
    match sites.all.get(number as usize) {
        None => None,
        Some(site) => after_numbered(sites.function, next, site),
    }
}

fn after_site(sites: &Sites, next: Option<Next>, number: u32) -> Option<Next>
    ensures { result ≡ spec.after_marks sites.now.all.now sites.now.function next (spec.site number ∷ []) }
{
    match next {
        None => None,
        Some(next) => after_known(sites, next, number),
    }
}

fn after_callee(sites: &Sites, next: Option<Next>, callee: &Callee) -> Option<Next>
    ensures { result ≡ spec.after_marks sites.now.all.now sites.now.function next (spec.callee_marks callee.now) }
{
    match callee {
        Callee::Malloc(number) | Callee::Calloc(number) => after_site(sites, next, *number),
        _ => next,
    }
}

fn after_right_side(sites: &Sites, next: Option<Next>, rhs: &Rhs) -> Option<Next>
    ensures { result ≡ spec.after_marks sites.now.all.now sites.now.function next (spec.right_marks rhs.now) }
{
    match rhs {
        Rhs::Value(_) => next,
        Rhs::Call(call, _) => after_callee(sites, next, &call.callee),
    }
}

fn after_optional(sites: &Sites, next: Option<Next>, rhs: &Option<Rhs>) -> Option<Next>
    ensures { result ≡ spec.after_marks sites.now.all.now sites.now.function next (spec.optional_marks rhs.now) }
{
    match rhs {
        None => next,
        Some(rhs) => after_right_side(sites, next, rhs),
    }
}

fn after_declaration(
    sites: &Sites,
    next: Option<Next>,
    number: u32,
    rhs: &Option<Rhs>,
) -> Option<Next>
    ensures { result ≡ spec.after_marks sites.now.all.now sites.now.function next (spec.local number ∷ spec.optional_marks rhs.now) }
{
    after_optional(sites, after_local(next, number), rhs)
}

/// What comes next after the statement; none where it doesn't have the next numbers.
#[cycle(after_statement)]
#[tactic(auto, using(src_meaning::proofs::ValidMarks::mark_facts))]
fn after_statement(sites: &Sites, next: Option<Next>, statement: &TypedStmt) -> Option<Next>
    ensures { result ≡ spec.after_marks sites.now.all.now sites.now.function next (spec.marks statement.now) }
{
    match statement {
        TypedStmt::Block(body) => after_statements(sites, next, body.as_slice()),
        TypedStmt::Declare(number, rhs) => after_declaration(sites, next, *number, rhs),
        TypedStmt::SetLocal(_, rhs) | TypedStmt::Assign(_, rhs) => {
            after_right_side(sites, next, rhs)
        }
        TypedStmt::Call(call) => after_callee(sites, next, &call.callee),
        TypedStmt::If(_, then, otherwise) => {
            let next = after_statement(sites, next, then.get());
            after_statements(sites, next, otherwise.as_slice())
        }
        TypedStmt::While(_, body) => after_statement(sites, next, body.get()),
        TypedStmt::For(first, _, step, body) => {
            let next = after_statements(sites, next, first.as_slice());
            let next = after_statements(sites, next, step.as_slice());
            after_statement(sites, next, body.get())
        }
        TypedStmt::Return(rhs) => after_optional(sites, next, rhs),
        TypedStmt::Empty | TypedStmt::Break | TypedStmt::Continue => next,
    }
}

/// What comes next after the statements.
#[cycle(after_statement)]
#[tactic(auto, using(src_meaning::proofs::ValidMarks::mark_facts))]
fn after_statements(sites: &Sites, next: Option<Next>, statements: &[TypedStmt]) -> Option<Next>
    ensures { result ≡ spec.after_marks sites.now.all.now sites.now.function next (spec.body_marks statements.now) }
{
    let mut after = next;
    for statement in statements {
        after = after_statement(sites, after, statement);
    }
    after
}

fn site_count(sites: &Sites) -> usize
    ensures { result ≡ count_by (λ s. nat_eq s.function sites.now.function) sites.now.all.now }
{
    sites
        .all
        .iter()
        .filter(|site| site.function == sites.function)
        .count()
}

fn is_function_numbered(sites: &Sites, function: &Function) -> bool
    ensures { result ≡ spec.is_function_numbered sites.now.all.now sites.now.function function.now }
{
    let params = function.params.as_slice().len();
    let first = Next {
        local: params as u64,
        ordinal: 0,
    };
    match after_statements(sites, Some(first), function.body.as_slice()) {
        None => false,
        Some(next) => {
            next.local == params as u64 + function.locals.as_slice().len() as u64
                && site_count(sites) as u64 == next.ordinal
        }
    }
}

fn are_functions_numbered(sites: &[Site], first: u32, functions: &[Function]) -> bool
    requires { first + length functions.now ≤ 4096 }
    ensures { result ≡ spec.are_functions_numbered sites.now first functions.now }
{
    match functions.split_first() {
        None => true,
        Some((function, rest)) => {
            let own = Sites {
                all: sites,
                function: first,
            };
            is_function_numbered(&own, function) && are_functions_numbered(sites, first + 1, rest)
        }
    }
}

fn follows(before: Option<Site>, site: Site) -> bool
    ensures { result ≡ spec.follows before site }
{
    match before {
        None => site.ordinal == 0,
        Some(before) => {
            site.ordinal == 0
                || site.function == before.function
                    && u64::from(site.ordinal) == successor(before.ordinal)
        }
    }
}

fn are_in_order(before: Option<Site>, sites: &[Site]) -> bool
    ensures { result ≡ spec.are_in_order before sites.now }
{
    match sites.split_first() {
        None => true,
        Some((site, rest)) => follows(before, *site) && are_in_order(Some(*site), rest),
    }
}

fn have_functions(sites: &[Site], functions: &[Function]) -> bool
    ensures { result ≡ list_all (λ s. nat_lt s.function (length functions.now)) sites.now }
{
    sites
        .iter()
        .all(|site| (site.function as usize) < functions.len())
}

/// Whether each local is declared once, and each site stands in one place of the text.
pub fn is_numbered(sites: &[Site], functions: &[Function]) -> bool
    requires { length functions.now ≤ 4096 }
    ensures { result ≡ spec.is_numbered sites.now functions.now }
{
    are_in_order(None, sites)
        && have_functions(sites, functions)
        && are_functions_numbered(sites, 0, functions)
}
