//! Images of the initial state by exchanges of objects.
use faults::NoMemory;
use grounding::Ground;
use std::alloc::Global;
use symmetries::{Exchange, Representatives, exchanged_numbers};

/// The number of images.
const MAX_IMAGES: usize = 64;

/// Images of the initial state, by their true atoms: its image by the product of all exchanges, the image of that, and so on. So each
/// of several interchangeable objects comes in turn to where the others start.
///
/// # Errors
/// Memory was refused.
pub(crate) fn images_of_start(
    alloc: Global,
    representatives: &Representatives<'_, '_, '_>,
) -> Result<Vec<Vec<u32>>, NoMemory> {
    let ground = representatives.ground();
    let images = images_by_all(alloc, ground, representatives.exchanges())?;
    let mut atoms = ground.initial(alloc)?.numbers(alloc)?;
    let mut starts = Vec::with_capacity(alloc, MAX_IMAGES)?;
    for _ in 0..MAX_IMAGES {
        for atom in atoms.iter_mut() {
            *atom = images.get(*atom as usize).copied().unwrap_or(*atom);
        }
        starts.push(Vec::from_slice(alloc, atoms.as_slice())?)?;
    }
    Ok(starts)
}

/// The image of each numbered atom by the product of all exchanges.
fn images_by_all(
    alloc: Global,
    ground: &Ground<'_>,
    exchanges: &[Exchange],
) -> Result<Vec<u32>, NoMemory> {
    let mut came_from = Vec::new(alloc);
    for number in 0..ground.width() {
        came_from.push(number)?;
    }
    for exchange in exchanges {
        if let Some(pairs) = exchanged_numbers(alloc, ground.atoms(), exchange)? {
            for &(one, other) in &pairs {
                swap_there(came_from.as_mut_slice(), one, other);
            }
        }
    }
    let mut images = Vec::from_slice(alloc, came_from.as_slice())?;
    for image in 0..ground.width() {
        let Some(&number) = came_from.get(image as usize) else {
            return Ok(images);
        };
        if let Some(place) = images.get_mut(number as usize) {
            *place = image;
        }
    }
    Ok(images)
}

/// Swaps the numbers at these places, if both exist.
fn swap_there(numbers: &mut [u32], one: usize, other: usize) {
    if one < numbers.len() && other < numbers.len() {
        numbers.swap(one, other);
    }
}
