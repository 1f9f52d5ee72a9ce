// The commands that make a text of one file.
ghost use Rattle.std.specs.Prelude.{◌≡◌, ◌≤◌, List, ℕ, length};
ghost use Rattle.gcl_reader.specs.Grammar.{Gives};
ghost use Rattle.command_line.specs.Pipeline.{svg_of, latex_of, system_of, show_of};
ghost use Rattle.command_line.specs.Drawn.{svg_seen, latex_seen, system_seen, shown};

use crate::asked::Asked;
use crate::drawn::Drawn;
use crate::stage::TextCommand;
use algebraize::{problems, write_system};
use construct::place;
use desk_io::{Failed, Pen, Sink};
use gcl_names::{Program, resolve};
use gcl_reader::{File, GclFault, MOST_BYTES, read, show};
use latex_out::write_latex;
use picture::draw;
use poly_model::Row;
use std::alloc::Global;
use svg_out::write_svg;

// The picture of a file. Both texts of a picture are written from it.
#[tactic(auto, unfolding(crate::specs::Pipeline::svg_of, crate::specs::Pipeline::latex_of))]
fn picture_of(alloc: Global, bytes: &[u8]) -> Result<Drawn, GclFault>
    requires { length bytes.now ≤ MOST_BYTES }
    ensures svg { Gives svg_seen result (svg_of bytes.now) }
    ensures latex { Gives latex_seen result (latex_of bytes.now) }
{
    let file = read(alloc, bytes)?;
    let program = resolve(alloc, &file)?;
    let spots = place(alloc, &program)?;
    let picture = draw(alloc, &program, &spots)?;
    let Program { points, .. } = program;
    Ok(Drawn {
        picture,
        names: points,
    })
}

/// `svg`: the picture of the file, as SVG.
pub struct SvgCommand;

impl TextCommand for SvgCommand {
    ghost use Rattle.command_line.specs.Drawn.{svg_seen};
    ghost use Rattle.command_line.specs.Pipeline.{svg_of};

    type Prepared = Drawn;

    ghost made = { svg_of };

    ghost text = { svg_seen };

    fn prepare(alloc: Global, bytes: &[u8]) -> Result<Drawn, GclFault> {
        picture_of(alloc, bytes)
    }

    fn write<S: Sink>(prepared: &Drawn, pen: &mut Pen, sink: &mut S) -> Result<(), Failed> {
        write_svg(&prepared.picture, prepared.names.as_slice(), pen, sink)
    }
}

/// `latex`: the picture of the file, for LaTeX.
pub struct LatexCommand;

impl TextCommand for LatexCommand {
    ghost use Rattle.command_line.specs.Drawn.{latex_seen};
    ghost use Rattle.command_line.specs.Pipeline.{latex_of};

    type Prepared = Drawn;

    ghost made = { latex_of };

    ghost text = { latex_seen };

    fn prepare(alloc: Global, bytes: &[u8]) -> Result<Drawn, GclFault> {
        picture_of(alloc, bytes)
    }

    fn write<S: Sink>(prepared: &Drawn, pen: &mut Pen, sink: &mut S) -> Result<(), Failed> {
        write_latex(&prepared.picture, prepared.names.as_slice(), pen, sink)
    }
}

// The problems of a file's proves.
#[tactic(auto, unfolding(crate::specs::Pipeline::system_of))]
fn problems_of(alloc: Global, bytes: &[u8]) -> Result<Asked, GclFault>
    requires { length bytes.now ≤ MOST_BYTES }
    ensures { Gives system_seen result (system_of bytes.now) }
{
    let file = read(alloc, bytes)?;
    let program = resolve(alloc, &file)?;
    let problems = problems(alloc, &program)?;
    Ok(Asked {
        problems: Row::from_vec(problems),
    })
}

/// `system`: the equations of each prove of the file.
pub struct SystemCommand;

impl TextCommand for SystemCommand {
    ghost use Rattle.command_line.specs.Drawn.{system_seen};
    ghost use Rattle.command_line.specs.Pipeline.{system_of};

    type Prepared = Asked;

    ghost made = { system_of };

    ghost text = { system_seen };

    fn prepare(alloc: Global, bytes: &[u8]) -> Result<Asked, GclFault> {
        problems_of(alloc, bytes)
    }

    fn write<S: Sink>(prepared: &Asked, pen: &mut Pen, sink: &mut S) -> Result<(), Failed> {
        write_system(prepared.problems.as_slice(), pen, sink)
    }
}

// The file, read.
#[tactic(auto, unfolding(crate::specs::Pipeline::show_of))]
fn file_of(alloc: Global, bytes: &[u8]) -> Result<File, GclFault>
    requires { length bytes.now ≤ MOST_BYTES }
    ensures { Gives shown result (show_of bytes.now) }
{
    let file = read(alloc, bytes)?;
    Ok(file)
}

/// `show`: the canonical spelling of the file.
pub struct ShowCommand;

impl TextCommand for ShowCommand {
    ghost use Rattle.command_line.specs.Drawn.{shown};
    ghost use Rattle.command_line.specs.Pipeline.{show_of};

    type Prepared = File;

    ghost made = { show_of };

    ghost text = { shown };

    fn prepare(alloc: Global, bytes: &[u8]) -> Result<File, GclFault> {
        file_of(alloc, bytes)
    }

    fn write<S: Sink>(prepared: &File, pen: &mut Pen, sink: &mut S) -> Result<(), Failed> {
        show(prepared, pen, sink)
    }
}
