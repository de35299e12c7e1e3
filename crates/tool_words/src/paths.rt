ghost use Rattle.std.specs.Prelude.{◌≡◌, ◌≤◌, ◌++◌, ◌∷◌, [], IfOk, length, map, true};
ghost use Rattle.std.specs.List.{list_any};
ghost use Rattle.tool_words.specs.Paths.{are_devices, are_different, devices_in, if_devices, is_same};
ghost use Rattle.tool_words.specs.Values.{Gives};

use crate::WordFault;
use crate::values::{or_fault, path};
use kit_bytes::PathText;
use std::alloc::{AllocError, Global};
use std::marker::Model;

/// The paths of one to eight devices, each of them once.
#[derive(Debug, Drop)]
pub struct PathTexts {
    paths: Vec<PathText>,
}

impl Model for PathTexts {
    ghost use Rattle.std.specs.Prelude.{◌≡◌, ℕ, List, true};
    ghost use Rattle.tool_words.specs.Paths.{are_devices};

    ghost Value = { List (List ℕ) };

    ghost view = { λ texts. texts.paths.items };

    ghost invariant = { λ texts. are_devices texts.paths.items ≡ true };
}

impl PathTexts {
    /// These paths, or None where they aren't those of one to eight devices.
    pub fn of(paths: Vec<PathText>) -> Option<Self>
        ensures { result ≡ if_devices paths.items }
    {
        if !paths.is_empty() && paths.len() <= 8 && are_different(&paths) {
            Some(PathTexts { paths })
        } else {
            None
        }
    }

    pub fn as_slice(&self) -> &[PathText]
        ensures same { result.now ≡ self.now }
        ensures some { 1 ≤ length self.now }
        ensures most { length self.now ≤ 8 }
        ensures different { are_different self.now ≡ true }
    {
        self.paths.as_slice()
    }
}

// Whether a path is among others.
fn is_among(path: &PathText, others: &[PathText]) -> bool
    ensures { result ≡ list_any (is_same path.now) others.now }
{
    for other in others {
        if path.value().as_str() == other.value().as_str() {
            return true;
        }
    }
    false
}

#[tactic(auto, unfolding(crate::specs::Paths::are_different))]
fn are_different(paths: &[PathText]) -> bool
    ensures { result ≡ are_different paths.now }
{
    for index in 0..paths.len() {
        if is_among(&paths[index], &paths[index + 1..]) {
            return false;
        }
    }
    true
}

fn add(paths: &mut Vec<PathText>, path: PathText) -> Result<(), AllocError>
    ensures { IfOk result (λ _. paths.new.items ≡ paths.old.items ++ path ∷ []) }
{
    paths.push(path)?;
    Ok(())
}

/// The paths of devices that the texts spell.
#[tactic(auto, unfolding(crate::specs::Paths::devices_in))]
pub fn devices(alloc: Global, texts: &[&str]) -> Result<PathTexts, WordFault>
    ensures { Gives (devices_in (map (λ text. text.now) texts.now)) result }
{
    let mut paths = Vec::new(alloc);
    for text in texts {
        add(&mut paths, path(alloc, text)?)?;
    }
    or_fault(PathTexts::of(paths))
}
