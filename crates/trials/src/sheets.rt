// The reader by itself, whose sheets are read by tables elsewhere.
use sheet::{Fault, FieldName, Layer, Places, Reader, Task};

// The fault of the first task of a sheet, behind the places.
fn first_fault(places: &mut Places) -> Option<Fault> {
    Reader::open(b"digits\nclaim\n")
        .next_task(places)
        .map_err(Fault::from)
        .err()
}

#[test]
fn thirty_two_tasks(rt: HostRuntime) {
    let mut places = Places::new();
    for _ in 0..32 {
        assert_eq!(rt; first_fault(&mut places), None);
    }
    assert_eq!(rt;
        first_fault(&mut places),
        Some(Fault {
            number: 10,
            layer: Layer::Sheet,
            line: 1,
            byte: 0,
        })
    );
}

// Nothing of the task before is left; the end leaves the task, a fault empties it.
#[test]
fn one_task_is_read_into_again(rt: HostRuntime) {
    let mut reader = Reader::open(b"field p5\ndigits 1 3\nclaim 2\ndigits 1\nclaim\ntail 0 28\n");
    let mut places = Places::new();
    let mut task = Task::new();
    assert_eq!(rt; reader.read_task(&mut places, &mut task), Ok(true));
    assert_eq!(rt; (task.byte, task.field), (0, FieldName::P5));
    assert!(rt; task.digits.as_slice() == [1, 3].as_slice());
    assert!(rt; task.claim.as_slice() == [2].as_slice());
    for more in [true, false] {
        assert_eq!(rt; reader.read_task(&mut places, &mut task), Ok(more));
        assert_eq!(rt; (task.byte, task.field), (28, FieldName::P2));
        assert!(rt; task.digits.as_slice() == [1].as_slice());
        assert!(rt; task.claim.is_empty());
    }
    let mut faulty = Reader::open(b"field p5\ndigits 1\nclaim x\n");
    assert!(rt; faulty.read_task(&mut Places::new(), &mut task).is_err());
    assert_eq!(rt; (task.byte, task.field), (0, FieldName::P2));
    assert!(rt; task.digits.is_empty());
}
