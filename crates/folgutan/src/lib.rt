// The C interface: include/folgutan.h documents it. Each function carries the contract of the one that it wraps; a result crosses as
// the struct, or the number, that C has for it. It asks nothing of its caller beyond valid slices that do not overlap.
#![tactic(auto)]

ghost use Rattle.load.specs.Load.{most_byte, LoadGives};
ghost use Rattle.gradient.specs.Gradient.{GradientGives};
ghost use Rattle.reading.specs.Reading.{LineGives};
ghost use Rattle.locate.specs.Locate.{lent, LocateGives};
ghost use Rattle.locate.specs.Promise.{Promise};
ghost use Rattle.locate.specs.Corners.{CornersHold};
ghost use Rattle.sample.specs.Sample.{SampleGives};
ghost use Rattle.cells.specs.Cells.{BoardGives};
ghost use Rattle.map.specs.Map.{MapGives};

use board::Board;
use load::Loaded;
use locate::Located;
use map::Printed;
use reading::Line;

#[unsafe(no_mangle)]
pub extern "C" fn folgutan_load(
    height: usize,
    width: usize,
    pixels: &[u8],
    planes: &mut [f32],
) -> Loaded
    ensures { LoadGives most_byte height width pixels.now planes.old result planes.new }
{
    Loaded::from(load::new(height, width, pixels, planes))
}

#[unsafe(no_mangle)]
pub extern "C" fn folgutan_gradient(
    height: usize,
    width: usize,
    planes: &[f32],
    out: &mut [f32],
) -> u32
    ensures { GradientGives height width planes.now out.old result out.new }
{
    refusal::answer_of(gradient::get_gradient(height, width, planes, out))
}

#[unsafe(no_mangle)]
pub extern "C" fn folgutan_locate(
    b: Board,
    factor: usize,
    planes: &mut [f32],
    edges: &mut [u8],
    scores: &mut [u32],
    scratch_f32: &mut [f32],
    scratch_u8: &mut [u8],
    scratch_u32: &mut [u32],
) -> Located
    ensures { let before = lent planes.old edges.old scores.old
        scratch_f32.old scratch_u8.old scratch_u32.old in
        let after = lent planes.new edges.new scores.new
        scratch_f32.new scratch_u8.new scratch_u32.new in
        LocateGives b factor before result after × Promise b factor before result after × CornersHold b result }
{
    locate::get_pos_pixel(
        b,
        factor,
        planes,
        edges,
        scores,
        scratch_f32,
        scratch_u8,
        scratch_u32,
    )
}

#[unsafe(no_mangle)]
pub extern "C" fn folgutan_read_line(list: &[u32], scratch: &mut [u32]) -> Line
    ensures { LineGives list.now scratch.old result scratch.new }
{
    Line::from(reading::get_line(list, scratch))
}

#[unsafe(no_mangle)]
pub extern "C" fn folgutan_sample(
    b: Board,
    planes: &[f32],
    x: usize,
    y: usize,
    size: usize,
    out: &mut [f32],
) -> u32
    ensures { SampleGives b planes.now x y size out.old result out.new }
{
    refusal::answer_of(sample::extra_save_cell(b, planes, x, y, size, out))
}

#[unsafe(no_mangle)]
pub extern "C" fn folgutan_sample_board(
    b: Board,
    planes: &[f32],
    size: usize,
    out: &mut [f32],
) -> u32
    ensures { BoardGives b planes.now size out.old result out.new }
{
    refusal::answer_of(cells::sample_board(b, planes, size, out))
}

#[unsafe(no_mangle)]
pub extern "C" fn folgutan_map(b: Board, planes: &[f32], out: &mut [u8]) -> Printed
    ensures { MapGives b planes.now out.old result out.new }
{
    Printed::from(map::print_map(b, planes, out))
}
