//! A queue with what it gives.
ghost use Rattle.std.specs.Prelude.{◌≡◌};

use doc_tree::NoMemory;
use notify_queue::*;
use std::fmt::Write;
use std::test::Fail;

fn pair(resource: usize, action: u8) -> Pair
    ensures { result ≡ record { resource = resource; action = action } }
{
    Pair { resource, action }
}

// Writes a pair as RESOURCE/ACTION, or `-` where there is none.
fn tell(told: &mut String, pair: Option<Pair>) -> Result<(), Fail> {
    match pair {
        Some(Pair { resource, action }) => write!(told, "{resource}/{action} ")?,
        None => told.push_str("- ")?,
    }
    Ok(())
}

#[test]
fn gives_first_occurrences_in_order(rt: HostRuntime) -> Result<(), Fail> {
    let mut told = String::new(rt.alloc());
    let mut queue = Queue::make(rt.alloc(), 3)?;
    tell(&mut told, queue.next())?;
    queue.queue(pair(2, 3));
    queue.queue(pair(0, 0));
    queue.queue(pair(2, 3));
    tell(&mut told, queue.next())?;
    queue.queue(pair(2, 3));
    queue.queue(pair(2, 0));
    queue.queue(pair(0, 0));
    tell(&mut told, queue.next())?;
    tell(&mut told, queue.next())?;
    tell(&mut told, queue.next())?;
    queue.queue(pair(0, 3));
    tell(&mut told, queue.next())?;
    tell(&mut told, queue.next())?;
    assert_eq!(rt; told.as_str(), "- 2/3 0/0 2/0 - 0/3 - ");
    Ok(())
}

#[test]
fn has_no_more_entries_than_can_be_counted(rt: HostRuntime) -> Result<(), Fail> {
    assert!(rt; matches!(Queue::make(rt.alloc(), usize::MAX), Err(NoMemory)));
    let mut none = Queue::make(rt.alloc(), 0)?;
    assert_eq!(rt; none.next(), None);
    Ok(())
}
