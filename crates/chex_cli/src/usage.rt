//! The commands as a person is told of them: texts alone.

/// A command.
#[derive(Clone, Copy)]
pub struct Help {
    pub name: &'static str,
    /// Its words after the name.
    pub line: &'static str,
    pub does: &'static str,
    pub arguments: &'static [Argument],
    pub example: &'static str,
}

/// How an argument is given.
#[derive(Clone, Copy, Debug, PartialEq, Eq)]
pub enum Form {
    Positional,
    /// An option that has to stand there.
    Needed,
    /// An option that may be left out.
    Choice,
    Flag,
}

/// An argument of a command.
#[derive(Clone, Copy)]
pub struct Argument {
    pub form: Form,
    /// Its name, of an option without its dashes.
    pub id: &'static str,
    pub shown: &'static str,
    /// The least and the greatest number, where it is one.
    pub limits: Option<(u64, u64)>,
    /// What it is, in which unit, its limits, and what it is where it is left out.
    pub says: &'static str,
}

const STEPS: Argument = Argument {
    form: Form::Choice,
    id: "steps",
    shown: "--steps N",
    limits: Some((1, 1_000_000)),
    says: "how many steps a cell may take, 1 to 1000000; 1000000 where it is left out",
};

const BUDGET: Argument = Argument {
    form: Form::Needed,
    id: "budget",
    shown: "--budget BYTES",
    limits: Some((0, 9_999_999_999_999_999_999)),
    says: "how many bytes kept snapshots may take together, in at most 1024 blocks; needed",
};

const BLOCK: Argument = Argument {
    form: Form::Choice,
    id: "block",
    shown: "--block BYTES",
    limits: Some((256, 1_048_576)),
    says: "the bytes of a block, 256 to 1048576; where it is left out the least power of two from 4096 on with at most 1024 blocks",
};

const SAVE: Argument = Argument {
    form: Form::Choice,
    id: "save",
    shown: "--save STEPS",
    limits: Some((0, 1_000_000)),
    says: "what saving a block counts as when the plan is made, 0 to 1000000 steps; 0 where it is left out",
};

const LOAD: Argument = Argument {
    form: Form::Choice,
    id: "load",
    shown: "--load STEPS",
    limits: Some((0, 1_000_000)),
    says: "what loading a block counts as when the plan is made, 0 to 1000000 steps; 0 where it is left out",
};

const TRANSCRIPT: Argument = Argument {
    form: Form::Flag,
    id: "transcript",
    shown: "--transcript",
    limits: None,
    says: "reports each operation of the replay on standard error, a line each",
};

const TALLY: Argument = Argument {
    form: Form::Flag,
    id: "tally",
    shown: "--tally",
    limits: None,
    says: "reports how many operations of each kind there were, and the steps that were computed",
};

const CHAIN: Argument = Argument {
    form: Form::Flag,
    id: "chain",
    shown: "--chain",
    limits: None,
    says: "reports a digest of the operations in their order",
};

/// The commands in the order in which they are told.
pub const COMMANDS: [Help; 2] = [
    Help {
        name: "run",
        line: "MANIFEST --budget BYTES [--block BYTES] [--steps N] [--save STEPS] [--load STEPS] [--transcript] [--tally] [--chain]",
        does: "Runs all versions of a manifest, their equal beginnings once, and writes what each prints.",
        arguments: &[
            Argument {
                form: Form::Positional,
                id: "manifest",
                shown: "MANIFEST",
                limits: None,
                says: "the file that lists the versions; names of files are taken from the current folder",
            },
            BUDGET,
            BLOCK,
            STEPS,
            SAVE,
            LOAD,
            TRANSCRIPT,
            TALLY,
            CHAIN,
        ],
        example: "chex run examples/orders/versions.json --budget 65536 --transcript",
    },
    Help {
        name: "solo",
        line: "NOTEBOOK [--steps N]",
        does: "Runs one notebook alone, without inputs, and writes what it prints.",
        arguments: &[
            Argument {
                form: Form::Positional,
                id: "notebook",
                shown: "NOTEBOOK",
                limits: None,
                says: "the file of a Jupyter notebook, nbformat 4",
            },
            STEPS,
        ],
        example: "chex solo examples/first.ipynb",
    },
];

/// An example of a command.
pub const LAST: &str = "chex run examples/orders/versions.json --budget 65536 --transcript";

/// The exit statuses.
pub const STATUSES: &str =
    "exit status: 0 all ran, also where a cell failed; 1 memory was wanting; 2 the words are no command;
  3 a file is not there; 4 a read failed; 5 a file is not of its format; 6 a cell is refused;
  7 a count passes its limit; 10, 11 the kernel or the store failed; 12 a write failed";
