// A line that asks something is read, and one that asks nothing is passed over.
use crate::command::Command;
use crate::line::read_line;

#[test]
fn lines_are_read(rt: HostRuntime) {
    let take = read_line::<Command>(rt.alloc(), " take\t15 ");
    assert!(rt; matches!(take, Ok(Some(Some(Command::Take { channel: 15 })))));
    let unknown = read_line::<Command>(rt.alloc(), "take 256");
    assert!(rt; matches!(unknown, Ok(Some(None))));
    let blank = read_line::<Command>(rt.alloc(), " \t");
    assert!(rt; matches!(blank, Ok(None)));
    let comment = read_line::<Command>(rt.alloc(), "#take 15");
    assert!(rt; matches!(comment, Ok(None)));
}
