// Which objects an update needs. The numbers come from the rules: the globals `m_in` and `m_out` and those of the text, and
// then the objects of the heap in the order of their allocation.

use crate::driver::needed;
use std::test::Fail;

/// A cycle of three nodes, and a fourth that nothing reaches.
const CYCLE: &str = r##"struct node { int v; struct node *next; };
struct node *mk(int v, struct node *next) {
  int *w = malloc(sizeof(int));
  struct node *p = malloc(sizeof(struct node));
  p->v = v;
  p->next = next;
  return p;
}
struct node *head;
void init(void) {
  struct node *p = mk(3, 0);
  struct node *q = mk(2, p);
  struct node *r = mk(1, q);
  p->next = r;
  head = r;
  p = mk(9, 0);
}
void on_message(void) { }
"##;

/// The same, where an integer is the address of another object.
const LOOKS_LIKE_AN_ADDRESS: &str = r##"struct node { int v; struct node *next; };
struct node *mk(int v, struct node *next) {
  int *w = malloc(sizeof(int));
  struct node *p = malloc(sizeof(struct node));
  p->v = v;
  p->next = next;
  return p;
}
struct node *head;
void init(void) {
  struct node *p = mk(3, 0);
  struct node *q = mk(2, p);
  struct node *r = mk(4288, q);
  p->next = r;
  head = r;
  p = mk(9, 0);
}
void on_message(void) { }
"##;

/// The same nodes with no `next`.
const NO_NEXT: &str = r##"struct node { int v; };
struct node *mk(int v, struct node *next) {
  int *w = malloc(sizeof(int));
  struct node *p = malloc(sizeof(struct node));
  p->v = v;
  return p;
}
struct node *head;
void init(void) { }
void on_message(void) { }
"##;

/// The same with no `head`.
const NO_HEAD: &str = r##"struct node { int v; struct node *next; };
struct node *top;
void init(void) { }
void on_message(void) { }
"##;

/// A pointer in an active member of a union, one to a dead object, and one in a member that is not active.
const UNION: &str = r##"union val { int i; int *p; };
struct item { int kind; union val v; };
struct item it;
int *dead;
int *end;
void init(void) {
  int *a = malloc(sizeof(int));
  int *b = malloc(sizeof(int));
  int *c = malloc(sizeof(int));
  it.v.p = a;
  dead = b;
  free(b);
  end = c + 1;
}
void on_message(void) { }
"##;

#[test]
fn a_cycle_is_walked_once_and_what_nothing_reaches_is_not(rt: HostRuntime) -> Result<(), Fail> {
    let found = needed(rt.alloc(), CYCLE, CYCLE)?;
    assert_eq!(rt; found.as_slice(), [0, 1, 2, 4, 6, 8].as_slice());
    Ok(())
}

#[test]
fn bytes_that_look_like_an_address_are_none(rt: HostRuntime) -> Result<(), Fail> {
    let found = needed(rt.alloc(), LOOKS_LIKE_AN_ADDRESS, LOOKS_LIKE_AN_ADDRESS)?;
    assert_eq!(rt; found.as_slice(), [0, 1, 2, 4, 6, 8].as_slice());
    Ok(())
}

#[test]
fn a_field_without_pair_is_not_followed(rt: HostRuntime) -> Result<(), Fail> {
    let found = needed(rt.alloc(), CYCLE, NO_NEXT)?;
    assert_eq!(rt; found.as_slice(), [0, 1, 2, 8].as_slice());
    Ok(())
}

#[test]
fn a_global_without_pair_is_no_root(rt: HostRuntime) -> Result<(), Fail> {
    let found = needed(rt.alloc(), CYCLE, NO_HEAD)?;
    assert_eq!(rt; found.as_slice(), [0, 1].as_slice());
    Ok(())
}

#[test]
fn an_active_member_and_an_end_are_followed_and_a_dead_object_is_not(
    rt: HostRuntime,
) -> Result<(), Fail> {
    let found = needed(rt.alloc(), UNION, UNION)?;
    assert_eq!(rt; found.as_slice(), [0, 1, 2, 3, 4, 5, 7].as_slice());
    Ok(())
}
