//! Copies of tables and what threads write into tables.

ghost use Rattle.std.specs.Prelude.{◌≡◌, length};

use cow_table::CowTable;
use sta_units::{Again, Memory};
use std::alloc::Global;
use std::process::Abort;
use std::thread;
use std::thread::Threads;

/// The items 0, 1, 2 and so on, `count` of them.
fn counted(rt: &impl Abort, alloc: Global, count: usize) -> CowTable<u64>
    ensures { length result ≡ count }
{
    let mut table = CowTable::new(alloc);
    for i in 0..count {
        table.push(i as u64).expect(rt, "memory");
    }
    table
}

/// Asserts that item `i` is `i`, but for the one at `at`, which is `value`.
fn assert_counted(rt: &impl Abort, table: &CowTable<u64>, at: usize, value: u64) {
    for i in 0..table.len() {
        let want = if i == at { value } else { i as u64 };
        assert_eq!(rt; *table.get(i), want, "at {i}");
    }
}

/// The places below `count`, and a value for each of them: its own number, or an error at one place.
fn every_place(
    rt: &impl Abort,
    alloc: Global,
    count: u32,
    refused: u32,
) -> (Vec<u32>, Vec<Result<u64, Memory>>)
    ensures { length result.0.items ≡ length result.1.items }
{
    let mut places = Vec::new(alloc);
    let mut values = Vec::new(alloc);
    for i in 0..count {
        places.push(i).expect(rt, "memory");
        let value = if i == refused {
            Err(Memory)
        } else {
            Ok(u64::from(i))
        };
        values.push(value).expect(rt, "memory");
    }
    (places, values)
}

#[test]
fn a_copy_of_3000_items_is_set_alone(rt: HostRuntime) {
    let original = counted(&rt, rt.alloc(), 3_000);
    let mut copy = original.copy().expect(&rt, "memory");
    copy.set(1_000, 7).expect(&rt, "memory");
    assert_eq!(rt; (original.len(), copy.len()), (3_000, 3_000));
    assert_counted(&rt, &original, 1_000, 1_000);
    assert_counted(&rt, &copy, 1_000, 7);
}

/// Asserts that a table and its copy part: one gets another last item, the other one item more.
fn assert_parted(rt: &impl Abort, alloc: Global, last: usize, count: usize, longer: usize) {
    let mut original = counted(rt, alloc, count);
    let mut copy = original.again(alloc).expect(rt, "memory");
    copy.push(7).expect(rt, "memory");
    assert!(rt; last < count);
    original.set(last, 8).expect(rt, "memory");
    assert_eq!(rt; (original.len(), copy.len()), (count, longer));
    assert_counted(rt, &original, last, 8);
    assert_counted(rt, &copy, count, 7);
}

#[test]
fn copies_part_at_the_edges_of_chunks_and_pages(rt: HostRuntime) {
    for &(last, count, longer) in &[
        (0, 1, 2),
        (62, 63, 64),
        (63, 64, 65),
        (64, 65, 66),
        (126, 127, 128),
        (127, 128, 129),
        (4_094, 4_095, 4_096),
        (4_095, 4_096, 4_097),
        (4_096, 4_097, 4_098),
        (8_192, 8_193, 8_194),
    ] {
        assert_parted(&rt, rt.alloc(), last, count, longer);
    }
}

/// A table of so many zeros, made by threads.
fn zeros<R: Threads + Sync + Abort>(
    rt: &R,
    alloc: Global,
    workers: u32,
    count: usize,
) -> CowTable<u64> {
    CowTable::filled(rt, alloc, workers, count, &0).expect(rt, "memory")
}

/// Writes every place of a table, and tells the first error.
fn write_all<R: Threads + Sync + Abort>(
    rt: &R,
    alloc: Global,
    workers: u32,
    table: &mut CowTable<u64>,
    count: u32,
    refused: u32,
) -> Option<Memory> {
    let (places, values) = every_place(rt, alloc, count, refused);
    table
        .put_all(rt, workers, places.as_slice(), values)
        .expect(rt, "memory")
}

/// Asserts that all items are zeros.
fn assert_zeros(rt: &impl Abort, table: &CowTable<u64>) {
    for i in 0..table.len() {
        assert_eq!(rt; *table.get(i), 0, "at {i}");
    }
}

/// Asserts that threads fill a table, and write it and not its copy.
fn assert_written<R: Threads + Sync + Abort>(rt: &R, alloc: Global, workers: u32, count: u32) {
    let len = count as usize;
    let mut table = zeros(rt, alloc, workers, len);
    assert_eq!(rt; table.len(), len);
    let before = table.copy().expect(rt, "memory");
    let refused = write_all(rt, alloc, workers, &mut table, count, count);
    assert!(rt; refused.is_none());
    assert_counted(rt, &table, len, 0);
    assert_zeros(rt, &before);
}

#[test]
fn threads_fill_a_table_and_write_it(rt: HostRuntime) {
    for &(count, workers) in &[
        (0, 4),
        (255, 1),
        (4_096, 4),
        (4_097, 2),
        (8_192, 3),
        (20_000, 4),
    ] {
        assert_written(&rt, rt.alloc(), workers, count);
    }
}

/// Asserts that the error at one place comes back, and that the table keeps its length.
fn assert_refused<R: Threads + Sync + Abort>(rt: &R, alloc: Global, workers: u32, count: u32) {
    let len = count as usize;
    let mut table = zeros(rt, alloc, workers, len);
    let refused = write_all(rt, alloc, workers, &mut table, count, 7);
    assert_eq!(rt; refused, Some(Memory));
    assert_eq!(rt; table.len(), len);
}

#[test]
fn the_first_error_comes_back(rt: HostRuntime) {
    for &(count, workers) in &[(10, 1), (4_096, 2), (9_000, 3)] {
        assert_refused(&rt, rt.alloc(), workers, count);
    }
}

/// The lengths of a table of a thread's own and of one that the threads share.
fn lengths<T: Send + Sync + Drop, R: Threads>(
    rt: &R,
    own: CowTable<T>,
    lent: &CowTable<T>,
) -> (usize, usize) {
    thread::join(rt, move || own.len(), || lent.len())
}

/// The same, where the other thread owns its table.
fn lengths_lent<T: Send + Sync + Drop, R: Threads>(
    rt: &R,
    lent: &CowTable<T>,
    own: CowTable<T>,
) -> (usize, usize) {
    thread::join(rt, || lent.len(), move || own.len())
}

#[test]
fn threads_own_and_share_tables(rt: HostRuntime) {
    let table = counted(&rt, rt.alloc(), 300);
    let one = table.copy().expect(&rt, "memory");
    assert_eq!(rt; lengths(&rt, one, &table), (300, 300));
    let other = table.copy().expect(&rt, "memory");
    assert_eq!(rt; lengths_lent(&rt, &table, other), (300, 300));
}
