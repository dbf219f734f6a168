//! Versions that a number makes, against another program that was written from the rule.
ghost use Rattle.std.specs.Prelude.{◌≡◌, ◌+◌};
ghost use Rattle.tree_maker.specs.Generator.{next, among};

use chex_base::Text;
use std::alloc::Global;
use std::process::Abort;
use std::test::Fail;
use tree_maker::{Version, make};

/// The first draw from seed 0 among 50 numbers gives 7, and so the first list 8 items.
#[tactic(auto, unfolding(tree_maker::specs::Generator::next, tree_maker::specs::Generator::among))]
fn first_draw()
    ensures { 1 + among 50 (next 0) ≡ 8 }
{}

/// The cells of each version: the number of the list's name, the cell's number, and the size.
struct Expected {
    seed: u64,
    cells: u32,
    versions: &'static [&'static [(u8, u8, u8)]],
}

const ROWS: [Expected; 5] = [
    Expected {
        seed: 0,
        cells: 1,
        versions: &[&[(0, 1, 8)]],
    },
    Expected {
        seed: 0,
        cells: 3,
        versions: &[
            &[(0, 1, 8), (0, 2, 38), (3, 3, 26)],
            &[(0, 1, 8), (0, 2, 38), (3, 4, 15)],
            &[(1, 5, 33), (2, 6, 31), (2, 7, 46)],
            &[(1, 5, 33), (1, 8, 35), (2, 9, 38)],
        ],
    },
    Expected {
        seed: 7,
        cells: 2,
        versions: &[
            &[(3, 1, 29), (1, 2, 4)],
            &[(3, 1, 29), (0, 3, 15)],
            &[(3, 4, 46), (0, 5, 33)],
        ],
    },
    Expected {
        seed: 18_446_744_073_709_551_615,
        cells: 4,
        versions: &[
            &[(3, 1, 39), (2, 2, 28), (3, 3, 15), (3, 4, 36)],
            &[(2, 5, 34), (2, 6, 11), (0, 7, 29), (0, 8, 2)],
        ],
    },
    Expected {
        seed: 9_999_999_999_999_999_999,
        cells: 2,
        versions: &[
            &[(1, 1, 13), (2, 2, 8)],
            &[(0, 3, 50), (1, 4, 10)],
            &[(0, 3, 50), (0, 5, 28)],
        ],
    },
];

fn source(alloc: Global, cell: &(u8, u8, u8)) -> Result<String, Fail> {
    let (list, number, size) = *cell;
    Ok(format!(in alloc;
        "l{list} = [{number} + i for i in range({size})]\nprint(len(l{list}), l{list}[0])"
    )?)
}

fn check_version(
    rt: &impl Abort,
    alloc: Global,
    version: &Version,
    place: usize,
    cells: &[(u8, u8, u8)],
) -> Result<(), Fail> {
    let name = format!(in alloc; "v{place}")?;
    assert_eq!(rt; version.name.as_str(), name.as_str());
    let sources = version.sources.as_slice();
    assert_eq!(rt; sources.len(), cells.len());
    for at in 0..sources.len().min(cells.len()) {
        let due = source(alloc, &cells[at])?;
        assert_eq!(rt; sources[at].as_str(), due.as_str());
    }
    Ok(())
}

#[test]
fn made_versions_are_those_of_the_rule(rt: HostRuntime) -> Result<(), Fail> {
    let alloc = rt.alloc();
    for row in &ROWS {
        let (versions, cells) = (row.versions.len() as u32, row.cells);
        assert!(rt; 1 <= versions && versions <= 64 && 1 <= cells && cells <= 64);
        let made = make(alloc, row.seed, versions, cells)?;
        let made = made.as_slice();
        assert_eq!(rt; made.len(), row.versions.len());
        for place in 0..made.len().min(row.versions.len()) {
            check_version(&rt, alloc, &made[place], place, row.versions[place])?;
        }
    }
    Ok(())
}

#[test]
fn a_version_is_taken_apart(rt: HostRuntime) -> Result<(), Fail> {
    let alloc = rt.alloc();
    first_draw();
    let mut texts: Vec<Text> = Vec::new(alloc);
    for version in make(alloc, 0, 1, 1)?.into_vec() {
        for text in version.sources.into_vec() {
            texts.push(text)?;
        }
    }
    assert_eq!(rt; texts.len(), 1);
    for text in &texts {
        assert_eq!(rt;
            text.as_str(),
            "l0 = [1 + i for i in range(8)]\nprint(len(l0), l0[0])"
        );
    }
    Ok(())
}
