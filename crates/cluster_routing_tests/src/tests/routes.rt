//! Where commands go.

use crate::tests::texts::{is_text, shows, text};
use cluster_routing::{
    Direction, MultiSlotArgPattern, ResponsePolicy, Route, RoutingInfo, SingleNodeRoutingInfo,
    SlotAddr, SplitParts, command_for_multi_slot_indices, role_of,
};
use resp_args::Cmd;
use resp_core::parse_redis_value;
use std::alloc::{AllocError, Global};
use std::process::Abort;
use std::test::Fail;

pub(crate) fn cmd(alloc: Global, words: &[&str]) -> Result<Cmd, AllocError> {
    let mut cmd = Cmd::new(alloc);
    for word in words {
        cmd.arg(*word)?;
    }
    Ok(cmd)
}

/// The text of where a command goes.
pub(crate) fn route_text(
    alloc: Global,
    words: &[&str],
    read_only: &[Vec<u8>],
) -> Result<String, AllocError> {
    let info = RoutingInfo::for_routable(alloc, &cmd(alloc, words)?, read_only)?;
    format!(in alloc; "{info:?}")
}

/// All these commands go there, if none only reads.
pub(crate) fn all_go<R: Abort>(rt: &R, alloc: Global, commands: &[&[&str]], wanted: &str) {
    for words in commands {
        is_text(rt, route_text(alloc, words, &[]), wanted);
    }
}

pub(crate) const TO_A: &str =
    "Some(SingleNode(SpecificNode(Route { slot: 15495, slot_addr: Master })))";

#[test]
fn splits_by_slot(rt: HostRuntime) {
    let alloc = rt.alloc();
    let keys =
        "Some(MultiNode((MultiSlot(([(Route { slot: 15495, slot_addr: Master }, [0, 2]), (Route { slot: 3300, slot_addr: Master }, [1])], KeysOnly)), Some(CombineArrays))))";
    all_go(&rt, alloc, &[&["MGET", "a", "b", "a"]], keys);
    let pairs =
        "Some(MultiNode((MultiSlot(([(Route { slot: 15495, slot_addr: Master }, [0, 1]), (Route { slot: 3300, slot_addr: Master }, [2, 3])], KeyValuePairs)), Some(AllSucceeded))))";
    all_go(&rt, alloc, &[&["MSET", "a", "1", "b", "2"]], pairs);
    let before_a_path =
        "Some(MultiNode((MultiSlot(([(Route { slot: 15495, slot_addr: Master }, [0]), (Route { slot: 3300, slot_addr: Master }, [1])], KeysAndLastArg)), Some(CombineArrays))))";
    all_go(&rt, alloc, &[&["JSON.MGET", "a", "b", "$"]], before_a_path);
    all_go(&rt, alloc, &[&["MGET", "a", "{a}x"]], TO_A);
}

/// The text of the direction of a command.
fn direction_text(alloc: Global, command: &Cmd) -> Result<String, AllocError> {
    let direction = Direction::for_routable(alloc, command, &[])?;
    format!(in alloc; "{direction:?}")
}

#[test]
fn tells_directions(rt: HostRuntime) -> Result<(), Fail> {
    let alloc = rt.alloc();
    let rows: [(&[&str], &str); 10] = [
        (
            &["GET", "a"],
            "Slot(Route { slot: 15495, slot_addr: Master })",
        ),
        (&["TIME"], "AnyNode"),
        (&["CONFIG", "SET", "a", "1"], "AllNodes(AllSucceeded)"),
        (&["DBSIZE"], "AllPrimaries(Aggregate(Sum))"),
        (
            &["MGET", "a", "{a}x"],
            "Parts(SplitParts { routes: [(Route { slot: 15495, slot_addr: Master }, [0, 1])], pattern: KeysOnly, policy: CombineArrays })",
        ),
        (
            &["MSET", "a", "1", "b", "2"],
            "Parts(SplitParts { routes: [(Route { slot: 15495, slot_addr: Master }, [0, 1]), (Route { slot: 3300, slot_addr: Master }, [2, 3])], pattern: KeyValuePairs, policy: AllSucceeded })",
        ),
        (&["MSET", "a", "1", "b"], "Nowhere(BrokenTuples)"),
        (&["MGET"], "Nowhere(BrokenTuples)"),
        (&["GET"], "Nowhere(NoRoute)"),
        (&[], "Nowhere(NoRoute)"),
    ];
    for (words, wanted) in rows {
        is_text(&rt, direction_text(alloc, &cmd(alloc, words)?), wanted);
    }
    let mut gap = cmd(alloc, &["MGET", "a"])?;
    gap.cursor_arg(7)?;
    is_text(&rt, direction_text(alloc, &gap), "Nowhere(CursorInSplit)");
    Ok(())
}

fn read_names(alloc: Global) -> Result<Vec<Vec<u8>>, AllocError> {
    let mut names = Vec::new(alloc);
    for name in ["get", "OBJECT FREQ"] {
        names.push(Vec::from_slice(alloc, name.as_bytes())?)?;
    }
    Ok(names)
}

#[test]
fn reads_may_go_to_replicas(rt: HostRuntime) -> Result<(), Fail> {
    let names = read_names(rt.alloc())?;
    let read = "Some(SingleNode(SpecificNode(Route { slot: 15495, slot_addr: ReplicaOptional })))";
    let rows: [(&[&str], &str); 3] = [
        (&["GET", "a"], read),
        (&["object", "freq", "a"], read),
        (&["SET", "a"], TO_A),
    ];
    for (words, wanted) in rows {
        is_text(&rt, route_text(rt.alloc(), words, &names), wanted);
    }
    Ok(())
}

/// The names as the routing table spells them: in capitals, a container's in two words.
#[test]
fn roles_are_by_name(rt: HostRuntime) -> Result<(), Fail> {
    let alloc = rt.alloc();
    let mut names = Vec::new(alloc);
    for name in ["GET", "OBJECT FREQ"] {
        names.push(Vec::from_slice(alloc, name.as_bytes())?)?;
    }
    let rows: [(&[u8], &str); 4] = [
        (b"GET", "ReplicaOptional"),
        (b"OBJECT FREQ", "ReplicaOptional"),
        (b"SET", "Master"),
        (b"OBJECT", "Master"),
    ];
    for (name, wanted) in rows {
        shows(&rt, alloc, &role_of(name, &names), wanted);
    }
    shows(&rt, alloc, &role_of(b"GET", &[]), "Master");
    Ok(())
}

/// A reply is looked at as a command: its parts, their commands, and one for places that it has in
/// part.
fn parts_of_a_reply(alloc: Global, bytes: &[u8]) -> Result<String, Fail> {
    let items = parse_redis_value(alloc, bytes)?;
    match SplitParts::for_routable(alloc, &items, &[])? {
        None => Err("no parts".into()),
        Some(parts) => {
            let mut commands = parts.commands(alloc, &items)?;
            commands.push(command_for_multi_slot_indices(alloc, &items, &[1, 7])?)?;
            Ok(commands_text(alloc, &parts, &commands)?)
        }
    }
}

fn commands_text(
    alloc: Global,
    parts: &SplitParts,
    commands: &[Cmd],
) -> Result<String, AllocError> {
    let mut all = format!(in alloc; "{parts:?}")?;
    for command in commands {
        let args = command.wire_args()?;
        all.push_str(format!(in alloc; " {args:?}")?.as_str())?;
    }
    Ok(all)
}

#[test]
fn splits_a_reply_as_a_command(rt: HostRuntime) -> Result<(), Fail> {
    let items = b"*3\r\n$4\r\nMget\r\n$1\r\na\r\n$1\r\nb\r\n";
    let wanted =
        "SplitParts { routes: [(Route { slot: 15495, slot_addr: Master }, [0]), (Route { slot: 3300, slot_addr: Master }, [1])], pattern: KeysOnly, policy: CombineArrays } [[77, 103, 101, 116], [97]] [[77, 103, 101, 116], [98]] [[77, 103, 101, 116], [98]]";
    let found = parts_of_a_reply(rt.alloc(), items)?;
    assert_eq!(rt; found.as_str(), wanted);
    Ok(())
}

/// So many arguments behind the word; every other one is a gap, where there are gaps.
fn made_command(alloc: Global, word: &str, count: usize, gaps: bool) -> Result<Cmd, AllocError> {
    let mut cmd = Cmd::new(alloc);
    cmd.arg(word)?;
    for number in 0..count {
        if gaps && number % 2 == 1 {
            cmd.cursor_arg(7)?;
        } else {
            cmd.arg(number)?;
        }
    }
    Ok(cmd)
}

/// Places in any order, twice, behind the end, and none.
fn made_parts(alloc: Global) -> Result<SplitParts, AllocError> {
    let places: [&[usize]; 5] = [&[0], &[2, 1], &[], &[1, 1, 3], &[9, 0]];
    let mut routes = Vec::new(alloc);
    for part in places {
        routes.push((
            Route::new(7, SlotAddr::Master),
            Vec::from_slice(alloc, part)?,
        ))?;
    }
    Ok(SplitParts {
        routes,
        pattern: MultiSlotArgPattern::KeysOnly,
        policy: ResponsePolicy::CombineArrays,
    })
}

/// Each route with the arguments that its part's command is sent with.
fn command_args(
    alloc: Global,
    parts: &SplitParts,
    cmd: &Cmd,
) -> Result<Vec<(Route, Vec<Vec<u8>>)>, AllocError> {
    let commands = parts.commands(alloc, cmd)?;
    let mut args = Vec::new(alloc);
    for (part, command) in parts.routes.iter().zip(commands.iter()) {
        args.push((part.0, command.wire_args()?))?;
    }
    Ok(args)
}

fn routes_args_of_commands<R: Abort>(
    rt: &R,
    alloc: Global,
    parts: &SplitParts,
    cmd: &Cmd,
) -> Result<(), Fail> {
    let wanted = text(alloc, &command_args(alloc, parts, cmd)?)?;
    shows(rt, alloc, &parts.routed_args(alloc, cmd)?, wanted.as_str());
    Ok(())
}

#[test]
fn routes_the_args_of_the_commands(rt: HostRuntime) -> Result<(), Fail> {
    let alloc = rt.alloc();
    let made = made_parts(alloc)?;
    let words = [
        "MGET",
        "del",
        "EXISTS",
        "UNLINK",
        "TOUCH",
        "WATCH",
        "MSET",
        "JSON.MGET",
        "JSON.MSET",
        "GET",
    ];
    for word in words {
        for count in 0..7 {
            for gaps in [false, true] {
                let cmd = made_command(alloc, word, count, gaps)?;
                routes_args_of_commands(&rt, alloc, &made, &cmd)?;
                if let Some(parts) = SplitParts::for_routable(alloc, &cmd, &[])? {
                    routes_args_of_commands(&rt, alloc, &parts, &cmd)?;
                }
            }
        }
    }
    routes_args_of_commands(&rt, alloc, &made, &Cmd::new(alloc))
}

#[test]
fn routes_the_shared_arg_to_each_part(rt: HostRuntime) -> Result<(), Fail> {
    let alloc = rt.alloc();
    let cmd = cmd(alloc, &["JSON.MGET", "a", "b", "$"])?;
    let wanted =
        "Some([(Route { slot: 15495, slot_addr: Master }, [[74, 83, 79, 78, 46, 77, 71, 69, 84], [97], [36]]), (Route { slot: 3300, slot_addr: Master }, [[74, 83, 79, 78, 46, 77, 71, 69, 84], [98], [36]])])";
    let found = match SplitParts::for_routable(alloc, &cmd, &[])? {
        None => None,
        Some(parts) => Some(parts.routed_args(alloc, &cmd)?),
    };
    shows(&rt, alloc, &found, wanted);
    Ok(())
}

#[test]
fn makes_single_nodes(rt: HostRuntime) {
    let alloc = rt.alloc();
    let route = SingleNodeRoutingInfo::from(Some(Route::new(7, SlotAddr::Master)));
    let wanted = "SpecificNode(Route { slot: 7, slot_addr: Master })";
    shows(&rt, alloc, &route, wanted);
    shows(&rt, alloc, &SingleNodeRoutingInfo::from(None), "Random");
    let names: [&[u8]; 2] = [b"script exists", b"GET"];
    let policies = names.map(ResponsePolicy::for_command);
    shows(&rt, alloc, &policies, "[Some(AggregateLogical(And)), None]");
}
