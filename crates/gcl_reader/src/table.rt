ghost use Rattle.std.specs.Prelude.{◌≡◌, List, ℕ};
ghost use Rattle.gcl_reader.specs.Table.{named, heads, statements, head_text, statement_text, head_of, statement_of, parameters_of, points_of, text_of};

use crate::word::{Head, Parameter, Range, Side, Statement, Word};

/// What has a spelling of its own in the language.
pub trait Written: Copy {
    ghost written: { Self → List ℕ };

    fn text(&self) -> &'static [u8]
        ensures { result.now ≡ written self.now };
}

impl Written for Head {
    ghost written = { head_text };

    fn text(&self) -> &'static [u8] {
        match self {
            Head::Word(word) => text_of(word),
            Head::Prove => b"prove",
        }
    }
}

impl Written for Statement {
    ghost written = { statement_text };

    fn text(&self) -> &'static [u8] {
        match self {
            Statement::Identical => b"identical",
            Statement::Collinear => b"collinear",
            Statement::Perpendicular => b"perpendicular",
            Statement::Parallel => b"parallel",
            Statement::Midpoint => b"midpoint",
            Statement::SameLength => b"same_length",
        }
    }
}

/// How a word is written.
pub fn text_of(word: &Word) -> &'static [u8]
    ensures { result.now ≡ text_of word.now }
{
    match word {
        Word::Dim => b"dim",
        Word::Color => b"color",
        Word::Prooflevel => b"prooflevel",
        Word::Prooflimit => b"prooflimit",
        Word::ProverTimeout => b"prover_timeout",
        Word::Point => b"point",
        Word::Line => b"line",
        Word::Circle => b"circle",
        Word::Intersec => b"intersec",
        Word::Intersec2 => b"intersec2",
        Word::Midpoint => b"midpoint",
        Word::Med => b"med",
        Word::Perp => b"perp",
        Word::Parallel => b"parallel",
        Word::Foot => b"foot",
        Word::Online => b"online",
        Word::Oncircle => b"oncircle",
        Word::Translate => b"translate",
        Word::Towards => b"towards",
        Word::Drawpoint => b"drawpoint",
        Word::Drawsegment => b"drawsegment",
        Word::Drawdashsegment => b"drawdashsegment",
        Word::Drawline => b"drawline",
        Word::Drawcircle => b"drawcircle",
        Word::Cmark => b"cmark",
        Word::CmarkAt(side) => ring_text(*side),
        Word::Mark(side) => mark_text(*side),
        Word::Prove(_) => b"prove",
    }
}

/// The word for a ring with a name at a side.
fn ring_text(side: Side) -> &'static [u8]
    ensures { result.now ≡ text_of (Word.CmarkAt side) }
{
    match side {
        Side::Centre => b"cmark_",
        Side::L => b"cmark_l",
        Side::R => b"cmark_r",
        Side::T => b"cmark_t",
        Side::B => b"cmark_b",
        Side::Lt => b"cmark_lt",
        Side::Lb => b"cmark_lb",
        Side::Rt => b"cmark_rt",
        Side::Rb => b"cmark_rb",
    }
}

/// The word for a name at a side.
fn mark_text(side: Side) -> &'static [u8]
    ensures { result.now ≡ text_of (Word.Mark side) }
{
    match side {
        Side::Centre => b"mark",
        Side::L => b"mark_l",
        Side::R => b"mark_r",
        Side::T => b"mark_t",
        Side::B => b"mark_b",
        Side::Lt => b"mark_lt",
        Side::Lb => b"mark_lb",
        Side::Rt => b"mark_rt",
        Side::Rb => b"mark_rb",
    }
}

/// What the first token of a command can begin.
fn heads() -> &'static [Head]
    ensures { result.now ≡ heads }
{
    &[
        Head::Word(Word::Dim),
        Head::Word(Word::Color),
        Head::Word(Word::Prooflevel),
        Head::Word(Word::Prooflimit),
        Head::Word(Word::ProverTimeout),
        Head::Word(Word::Point),
        Head::Word(Word::Line),
        Head::Word(Word::Circle),
        Head::Word(Word::Intersec),
        Head::Word(Word::Intersec2),
        Head::Word(Word::Midpoint),
        Head::Word(Word::Med),
        Head::Word(Word::Perp),
        Head::Word(Word::Parallel),
        Head::Word(Word::Foot),
        Head::Word(Word::Online),
        Head::Word(Word::Oncircle),
        Head::Word(Word::Translate),
        Head::Word(Word::Towards),
        Head::Word(Word::Drawpoint),
        Head::Word(Word::Drawsegment),
        Head::Word(Word::Drawdashsegment),
        Head::Word(Word::Drawline),
        Head::Word(Word::Drawcircle),
        Head::Word(Word::Cmark),
        Head::Word(Word::CmarkAt(Side::L)),
        Head::Word(Word::CmarkAt(Side::R)),
        Head::Word(Word::CmarkAt(Side::T)),
        Head::Word(Word::CmarkAt(Side::B)),
        Head::Word(Word::CmarkAt(Side::Lt)),
        Head::Word(Word::CmarkAt(Side::Lb)),
        Head::Word(Word::CmarkAt(Side::Rt)),
        Head::Word(Word::CmarkAt(Side::Rb)),
        Head::Word(Word::Mark(Side::Centre)),
        Head::Word(Word::Mark(Side::L)),
        Head::Word(Word::Mark(Side::R)),
        Head::Word(Word::Mark(Side::T)),
        Head::Word(Word::Mark(Side::B)),
        Head::Word(Word::Mark(Side::Lt)),
        Head::Word(Word::Mark(Side::Lb)),
        Head::Word(Word::Mark(Side::Rt)),
        Head::Word(Word::Mark(Side::Rb)),
        Head::Prove,
    ]
}

fn statements() -> &'static [Statement]
    ensures { result.now ≡ statements }
{
    &[
        Statement::Identical,
        Statement::Collinear,
        Statement::Perpendicular,
        Statement::Parallel,
        Statement::Midpoint,
        Statement::SameLength,
    ]
}

/// The first of the candidates that is written as the text.
fn named<X: Written>(candidates: &[X], text: &[u8]) -> Option<X>
    ensures { result ≡ named X.written candidates.now text.now }
{
    let mut rest = candidates;
    while let [candidate, after @ ..] = rest {
        if text == candidate.text() {
            return Some(*candidate);
        }
        rest = after;
    }
    None
}

/// What a command's first token begins.
#[tactic(auto, unfolding(crate::specs::Table::head_of))]
pub fn head_of(text: &[u8]) -> Option<Head>
    ensures { result ≡ head_of text.now }
{
    named(heads(), text)
}

/// The statement that a token names.
#[tactic(auto, unfolding(crate::specs::Table::statement_of))]
pub fn statement_of(text: &[u8]) -> Option<Statement>
    ensures { result ≡ statement_of text.now }
{
    named(statements(), text)
}

/// The parameters of a word.
pub fn parameters_of(word: &Word) -> &'static [Parameter]
    ensures { result.now ≡ parameters_of word.now }
{
    match word {
        Word::Dim => &[
            Parameter::Number(Range::Picture),
            Parameter::Number(Range::Picture),
        ],
        Word::Color => &[
            Parameter::Number(Range::Byte),
            Parameter::Number(Range::Byte),
            Parameter::Number(Range::Byte),
        ],
        Word::Prooflevel => &[Parameter::Number(Range::Any)],
        Word::Prooflimit => &[Parameter::Number(Range::Any)],
        Word::ProverTimeout => &[Parameter::Number(Range::Any)],
        Word::Point => &[
            Parameter::NewPoint,
            Parameter::Number(Range::Any),
            Parameter::Number(Range::Any),
        ],
        Word::Line => &[Parameter::NewLine, Parameter::Point, Parameter::Point],
        Word::Circle => &[Parameter::NewCircle, Parameter::Point, Parameter::Point],
        Word::Intersec => &[Parameter::NewPoint, Parameter::Line, Parameter::Line],
        Word::Intersec2 => &[
            Parameter::NewPoint,
            Parameter::NewPoint,
            Parameter::Curve,
            Parameter::OtherCurve,
        ],
        Word::Midpoint => &[Parameter::NewPoint, Parameter::Point, Parameter::Point],
        Word::Med => &[Parameter::NewLine, Parameter::Point, Parameter::Point],
        Word::Perp => &[Parameter::NewLine, Parameter::Point, Parameter::Line],
        Word::Parallel => &[Parameter::NewLine, Parameter::Point, Parameter::Line],
        Word::Foot => &[Parameter::NewPoint, Parameter::Point, Parameter::Line],
        Word::Online => &[Parameter::NewPoint, Parameter::Point, Parameter::Point],
        Word::Oncircle => &[Parameter::NewPoint, Parameter::Point, Parameter::Point],
        Word::Translate => &[
            Parameter::NewPoint,
            Parameter::Point,
            Parameter::Point,
            Parameter::Point,
        ],
        Word::Towards => &[
            Parameter::NewPoint,
            Parameter::Point,
            Parameter::Point,
            Parameter::Number(Range::Any),
        ],
        Word::Drawpoint => &[Parameter::Point],
        Word::Drawsegment => &[Parameter::Point, Parameter::Point],
        Word::Drawdashsegment => &[Parameter::Point, Parameter::Point],
        Word::Drawline => &[Parameter::Line],
        Word::Drawcircle => &[Parameter::Circle],
        Word::Cmark => &[Parameter::Point],
        Word::CmarkAt(_) => &[Parameter::Point],
        Word::Mark(_) => &[Parameter::Point],
        Word::Prove(statement) => points_of(statement),
    }
}

/// What stands behind a statement.
fn points_of(statement: &Statement) -> &'static [Parameter]
    ensures { result.now ≡ points_of statement.now }
{
    match statement {
        Statement::Identical => &[Parameter::Point, Parameter::Point],
        Statement::Collinear => &[Parameter::Point, Parameter::Point, Parameter::Point],
        Statement::Perpendicular => &[
            Parameter::Point,
            Parameter::Point,
            Parameter::Point,
            Parameter::Point,
        ],
        Statement::Parallel => &[
            Parameter::Point,
            Parameter::Point,
            Parameter::Point,
            Parameter::Point,
        ],
        Statement::Midpoint => &[Parameter::Point, Parameter::Point, Parameter::Point],
        Statement::SameLength => &[
            Parameter::Point,
            Parameter::Point,
            Parameter::Point,
            Parameter::Point,
        ],
    }
}
