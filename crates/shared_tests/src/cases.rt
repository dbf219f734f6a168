//! The cases.

/// A version: its name, the sources of its cells, and its inputs, whole numbers by name.
pub struct Version {
    pub name: &'static str,
    pub sources: &'static [&'static str],
    pub inputs: &'static [(&'static str, i128)],
}

/// Versions that are run together.
pub struct Case {
    pub name: &'static str,
    pub versions: &'static [Version],
    /// The most blocks of 4,096 bytes.
    pub most: u32,
    /// The most steps of a cell.
    pub allowance: u64,
}

const ONE: &str = "print(1 + 2)";

const LISTS: &str = "x = [1]\ny = x";

const OWN: &str = "x = []\nx.append(x)";

const ASKING: &str = "def f():\n    return input(\"n\")";

const FAILING: &str = "print(1)\nx = 1 // 0\nprint(2)";

const CHANGED: [Version; 2] = [
    Version {
        name: "a",
        sources: &[LISTS, "y.append(2)\nprint(x)"],
        inputs: &[],
    },
    Version {
        name: "b",
        sources: &[LISTS, "print(y)"],
        inputs: &[],
    },
];

const LONE: [Version; 1] = [Version {
    name: "p",
    sources: &[ONE],
    inputs: &[],
}];

pub const CASES: [Case; 11] = [
    Case {
        name: "no cells",
        versions: &[Version {
            name: "e",
            sources: &[],
            inputs: &[],
        }],
        most: 0,
        allowance: 1_000_000,
    },
    Case {
        name: "no versions",
        versions: &[],
        most: 0,
        allowance: 1_000_000,
    },
    Case {
        name: "twice the same",
        versions: &[
            Version {
                name: "p",
                sources: &[ONE],
                inputs: &[],
            },
            Version {
                name: "q",
                sources: &[ONE],
                inputs: &[],
            },
        ],
        most: 0,
        allowance: 1_000_000,
    },
    Case {
        name: "one goes on",
        versions: &[
            Version {
                name: "p",
                sources: &[ONE],
                inputs: &[],
            },
            Version {
                name: "q",
                sources: &[ONE, "print(\"ok\")"],
                inputs: &[],
            },
        ],
        most: 0,
        allowance: 1_000_000,
    },
    Case {
        name: "a list is changed, with a block",
        versions: &CHANGED,
        most: 1,
        allowance: 1_000_000,
    },
    Case {
        name: "a list is changed, with none",
        versions: &CHANGED,
        most: 0,
        allowance: 1_000_000,
    },
    Case {
        name: "a list in itself",
        versions: &[
            Version {
                name: "a",
                sources: &[OWN, "print(len(x))"],
                inputs: &[],
            },
            Version {
                name: "b",
                sources: &[OWN, "x.append(1)\nprint(len(x))"],
                inputs: &[],
            },
            Version {
                name: "c",
                sources: &[OWN, "print(x)"],
                inputs: &[],
            },
        ],
        most: 1,
        allowance: 1_000_000,
    },
    Case {
        name: "inputs",
        versions: &[
            Version {
                name: "a",
                sources: &[ASKING, "print(f())"],
                inputs: &[("n", 1), ("m", 1)],
            },
            Version {
                name: "b",
                sources: &[ASKING, "print(f())"],
                inputs: &[("n", 1), ("m", 2)],
            },
            Version {
                name: "c",
                sources: &[ASKING, "print(f())"],
                inputs: &[("n", 2)],
            },
        ],
        most: 0,
        allowance: 1_000_000,
    },
    Case {
        name: "a failure",
        versions: &[
            Version {
                name: "a",
                sources: &[FAILING, "print(3)"],
                inputs: &[],
            },
            Version {
                name: "b",
                sources: &[FAILING],
                inputs: &[],
            },
        ],
        most: 0,
        allowance: 1_000_000,
    },
    Case {
        name: "just enough steps",
        versions: &LONE,
        most: 0,
        allowance: 9,
    },
    Case {
        name: "a step too few",
        versions: &LONE,
        most: 0,
        allowance: 8,
    },
];
