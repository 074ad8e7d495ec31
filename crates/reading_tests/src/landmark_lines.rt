//! Landmark values as lines of a text.
use faults::NoMemory;
use landmark_zones::{Landmarks, Share, ZoneRef, add_cut_by, add_dead_by, add_value, add_zone};
use std::alloc::{AllocError, Global};
use std::test::Fail;

/// Three zones, and two values over them.
fn landmarks(alloc: Global) -> Result<Landmarks, NoMemory> {
    let mut landmarks = Landmarks::none(alloc);
    landmarks.push_zone(ZoneRef {
        atoms: &[2],
        negated: &[],
    })?;
    landmarks.push_zone(ZoneRef {
        atoms: &[1, 2],
        negated: &[0, 10],
    })?;
    landmarks.push_zone(ZoneRef {
        atoms: &[],
        negated: &[4_294_967_295],
    })?;
    landmarks.push_value(&[Share { zone: 0, weight: 3 }, Share { zone: 2, weight: 1 }])?;
    landmarks.push_value(&[Share {
        zone: 1,
        weight: 2_147_483_647,
    }])?;
    Ok(landmarks)
}

/// The lines of the zones, and then those of the values.
fn lines_of(alloc: Global, landmarks: &Landmarks) -> Result<Vec<u8>, AllocError> {
    let mut text = Vec::new(alloc);
    for number in 0..landmarks.zone_count() {
        add_zone(landmarks.zone(number), &mut text)?;
    }
    for number in 0..landmarks.value_count() {
        add_value(landmarks.value(number), &mut text)?;
    }
    Ok(text)
}

#[test]
fn zones_and_values_are_written_by_line(rt: HostRuntime) -> Result<(), Fail> {
    let alloc = rt.alloc();
    let landmarks = landmarks(alloc)?;
    let text = lines_of(alloc, &landmarks)?;
    let lines =
        b"zone 2\nzone 1 2 not 0 10\nzone not 4294967295\nmarks 0 3 2 1\nmarks 1 2147483647\n";
    assert_eq!(rt; text.as_slice(), lines.as_slice());
    Ok(())
}

#[test]
fn states_name_the_value_that_they_rest_on(rt: HostRuntime) -> Result<(), Fail> {
    let mut text = Vec::new(rt.alloc());
    add_cut_by(7, 3, 4, &mut text)?;
    add_dead_by(0, 18_446_744_073_709_551_615, &mut text)?;
    let lines = b"cut-by 7 3 4dead-by 0 18446744073709551615";
    assert_eq!(rt; text.as_slice(), lines.as_slice());
    Ok(())
}

#[test]
fn limits_of_a_text_are_reported(rt: HostRuntime) -> Result<(), Fail> {
    let alloc = rt.alloc();
    let mut within = Landmarks::none(alloc);
    within.push_zone(ZoneRef {
        atoms: &[1, 2],
        negated: &[0, 4],
    })?;
    within.push_value(&[Share { zone: 0, weight: 1 }])?;
    assert!(rt; within.keep_limits(5));
    assert!(rt; !within.keep_limits(4));
    within.push_value(&[Share { zone: 1, weight: 1 }])?;
    assert!(rt; !within.keep_limits(5));
    let mut on_both_sides = Landmarks::none(alloc);
    on_both_sides.push_zone(ZoneRef {
        atoms: &[1, 2],
        negated: &[2],
    })?;
    assert!(rt; !on_both_sides.keep_limits(5));
    Ok(())
}
