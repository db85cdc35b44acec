//! Commands: what they are sent as, and what they tell of themselves.
use resp_args::command::cmd;
use resp_args::{Arg, Cmd, RedisWrite, pack_command_into};
use std::process::Abort;
use std::test::Fail;

fn packs<R: Abort>(rt: &R, command: &Cmd, expected: &[u8]) {
    match command.get_packed_command() {
        Ok(packed) => assert_eq!(rt; packed.as_slice(), expected),
        Err(_) => assert!(rt; false, "memory was refused"),
    }
}

/// `SSCAN a` and two gaps.
fn is_scan<R: Abort>(rt: &R, command: &Cmd) {
    let mut args = command.args_iter();
    assert!(rt; args.next() == Some(Arg::Simple(b"SSCAN".as_slice())));
    assert!(rt; args.next() == Some(Arg::Simple(b"a".as_slice())));
    assert!(rt; args.next() == Some(Arg::Cursor));
    assert!(rt; args.next() == Some(Arg::Cursor));
    assert!(rt; args.next().is_none());
    assert!(rt; command.in_scan_mode());
}

#[test]
fn packs_gaps_as_the_number_set_last(rt: HostRuntime) -> Result<(), Fail> {
    let mut command = cmd(rt.alloc(), "SSCAN")?;
    command.arg("a")?;
    command.cursor_arg(42)?;
    command.cursor_arg(7)?;
    is_scan(&rt, &command);
    packs(
        &rt,
        &command,
        b"*4\r\n$5\r\nSSCAN\r\n$1\r\na\r\n$1\r\n7\r\n$1\r\n7\r\n",
    );
    Ok(())
}

#[test]
fn clears_to_a_new_command(rt: HostRuntime) -> Result<(), Fail> {
    let mut command = Cmd::with_capacity(rt.alloc(), 2, 4)?;
    command.write_arg(b"SCAN")?;
    command.cursor_arg(0)?;
    assert!(rt; command.set_no_response(true).is_no_response());
    command.clear();
    assert!(rt; !command.in_scan_mode());
    assert!(rt; !command.is_no_response());
    assert!(rt; command.args_iter().next().is_none());
    command.arg("PING")?;
    packs(&rt, &command, b"*1\r\n$4\r\nPING\r\n");
    Ok(())
}

#[test]
fn packs_arguments_behind_others(rt: HostRuntime) -> Result<(), Fail> {
    let ping = cmd(rt.alloc(), "PING")?;
    let mut get = cmd(rt.alloc(), "GET")?;
    get.arg("a")?;
    let mut out = Vec::new(rt.alloc());
    pack_command_into(&mut out, &ping.wire_args()?)?;
    pack_command_into(&mut out, &get.wire_args()?)?;
    assert_eq!(rt;
        out.as_slice(),
        b"*1\r\n$4\r\nPING\r\n*2\r\n$3\r\nGET\r\n$1\r\na\r\n".as_slice()
    );
    Ok(())
}
