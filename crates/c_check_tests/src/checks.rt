// The checker on whole texts. What is expected of each text comes from the rules.

mod chains;
mod declared;
mod limits;
mod linked_servers;
mod plain_servers;
mod pointers;
mod typed;
mod verdicts;

use crate::checks::verdicts::verdict;
use std::test::Fail;

#[test]
fn a_text_without_declarations_lacks_handlers(rt: HostRuntime) -> Result<(), Fail> {
    assert_eq!(rt; verdict(rt.alloc(), "")?, (1, 25));
    Ok(())
}
