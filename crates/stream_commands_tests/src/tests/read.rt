//! Options of XREAD and XREADGROUP.
use crate::tests::writing::writes;
use std::alloc::{AllocError, Global};
use std::test::*;
use stream_commands::*;

#[test]
fn read_options(rt: HostRuntime) -> Result<(), Fail> {
    let alloc = rt.alloc();
    let options = StreamReadOptions::empty().noack().claim(5).count(2);
    assert!(rt; options.read_only());
    assert!(rt; !options.blocks());
    writes(&rt, alloc, options, "COUNT 2");
    let options = StreamReadOptions::empty()
        .noack()
        .claim(5)
        .count(2)
        .block(0);
    let options = options.group(alloc, "g", "c")?;
    assert!(rt; !options.read_only());
    assert!(rt; options.blocks());
    let all = "GROUP g c BLOCK 0 COUNT 2 NOACK CLAIM 5";
    writes(&rt, alloc, options, all);
    Ok(())
}

fn names_text(alloc: Global, options: &StreamReadOptions) -> Result<String, AllocError> {
    format!(in alloc; "{:?}", options.group_names())
}

#[test]
fn group_names(rt: HostRuntime) -> Result<(), Fail> {
    let options = StreamReadOptions::empty().group(rt.alloc(), ("a", 7_usize), "c")?;
    let names = names_text(rt.alloc(), &options)?;
    assert_eq!(rt; names.as_str(), "Some(([[97], [55]], [[99]]))");
    Ok(())
}
