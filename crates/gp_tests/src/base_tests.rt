use gp_base::event::{End, Event, Events, GateName};
use gp_base::event_text::{end_text, event_text};
use gp_base::files::{Failed, Files};
use gp_base::laws::{live_below_next, trace_is_lines, worlds_stay_clean};
use gp_base::memory_files::MemoryFiles;
use gp_base::memory_sink::MemorySink;
use gp_base::name::{LineNo, Name};
use gp_base::sequence::TextBytes;
use gp_base::sink::{Sink, write_all};
use gp_base::stack::Stack;
use gp_base::tag::{Tag, is_tag};
use std::test::Fail;

#[test]
fn tags_and_names_keep_their_texts(rt: HostRuntime) -> Result<(), Fail> {
    assert!(rt; is_tag(b"c 0~"));
    let tag = Tag::new(rt.alloc(), b"c 0~")?.ok_or("no tag")?;
    assert_eq!(rt; tag.as_bytes(), b"c 0~".as_slice());
    let name = Name::new(rt.alloc(), "q0")?;
    assert_eq!(rt; name.copy()?.as_str(), "q0");
    assert_eq!(rt; LineNo(3).0, 3);
    Ok(())
}

#[test]
fn sequences_grow_and_shrink(rt: HostRuntime) -> Result<(), Fail> {
    let mut bytes = TextBytes::new(rt.alloc());
    bytes.push(b'h')?;
    bytes.push(b'i')?;
    assert_eq!(rt; bytes.get(1).copied(), Some(b'i'));
    bytes.take_back();
    assert_eq!(rt; bytes.len(), 1);
    assert_eq!(rt; bytes.as_slice(), b"h".as_slice());
    assert_eq!(rt; bytes.into_vec().len(), 1);
    Ok(())
}

#[test]
fn stacks_give_the_last_item_first(rt: HostRuntime) -> Result<(), Fail> {
    let mut stack = Stack::new(rt.alloc());
    stack.push(1u8)?;
    stack.push(2)?;
    stack.push(3)?;
    stack.take_back();
    assert_eq!(rt; stack.top(), Some(2));
    assert_eq!(rt; stack.pop(), Some(2));
    assert!(rt; !stack.is_empty());
    Ok(())
}

#[test]
fn files_are_read_until_a_call_fails(rt: HostRuntime) -> Result<(), Fail> {
    let mut files = MemoryFiles::new(rt.alloc());
    files.put("a", b"12345")?;
    files.fail_at(2)?;
    files.open("a")?;
    let mut buf = [0; 3];
    assert_eq!(rt; files.read(&mut buf)?, 3);
    assert_eq!(rt; buf, *b"123");
    assert_eq!(rt; files.read(&mut buf), Err(Failed));
    assert_eq!(rt; files.faults(), 1);
    Ok(())
}

#[test]
fn sinks_fill_up(rt: HostRuntime) -> Result<(), Fail> {
    let mut sink = MemorySink::new(rt.alloc(), 5)?;
    sink.fail_at(1)?;
    write_all(&mut sink, b"abc")?;
    assert_eq!(rt; sink.write(b"def"), Err(Failed));
    assert_eq!(rt; sink.write(b"def")?, 2);
    assert_eq!(rt; sink.bytes(), b"abcde".as_slice());
    assert_eq!(rt; sink.faults(), 1);
    Ok(())
}

#[test]
fn events_and_ends_have_texts(rt: HostRuntime) -> Result<(), Fail> {
    let mut events = Events::new(rt.alloc());
    events.push(Event::Gate2(GateName::Cx, 1, 2))?;
    let mut buf = [b'#'; 320];
    let len = event_text(events.get(0).ok_or("no event")?, &mut buf);
    assert_eq!(rt; &buf[..len], b"cx 1 2\n".as_slice());
    assert_eq!(rt; end_text(End::Returned), "end return");
    live_below_next();
    worlds_stay_clean();
    trace_is_lines();
    Ok(())
}
