//! The worst paths so far, in order.

ghost use Rattle.std.specs.Prelude.{◌≡◌, ◌≤◌, ◌<ℤ◌, true, All, length, take, OnOk};
ghost use Rattle.std.specs.List.{insert};
ghost use Rattle.design_paths.specs.Kept.{put, kept_all};

use crate::comparing::path_before;
use sta_units::{Fs, Memory};
use timing_defs::{Items, Path};

/// The place of a path among paths in order: that of the first that it comes before.
#[tactic(auto, using(crate::proofs::Keeping::put_step, crate::proofs::Keeping::put_here, crate::proofs::Keeping::put_last))]
fn place_of(paths: &[Path], path: &Path) -> usize
    ensures within { result ≤ length paths.now }
    ensures place { insert paths.now result path.now ≡ put path.now paths.now }
{
    for place in 0..paths.len() {
        if path_before(path, &paths[place]) {
            return place;
        }
    }
    paths.len()
}

/// Puts a path among paths in order, of which at most so many are kept.
fn keep(paths: &mut Vec<Path>, path: Path, most: usize) -> Result<(), Memory>
    ensures { OnOk result (paths.new.items ≡ take most (put path paths.old.items)) }
{
    let place = place_of(paths.as_slice(), &path);
    match paths.insert(place, path) {
        Ok(()) => {
            paths.truncate(most);
            Ok(())
        }
        Err(_) => Err(Memory),
    }
}

/// Puts more paths among paths in order, of which at most so many are kept.
pub(crate) fn keep_all(kept: &mut Vec<Path>, more: Items<Path>, most: usize) -> Result<(), Memory>
    ensures { OnOk result (kept.new.items ≡ kept_all most kept.old.items more) }
{
    for path in more.into_vec() {
        keep(kept, path, most)?;
    }
    Ok(())
}

/// Whether so many are kept and all have less than a slack.
pub(crate) fn are_full(kept: &[Path], most: usize, slack: Fs) -> bool
    ensures full { result ≡ true → length kept.now ≡ most }
    ensures less { result ≡ true → All (λ path. path.slack.0 <ℤ slack.0) kept.now }
{
    kept.len() == most && kept.iter().all(|path| path.slack < slack)
}
