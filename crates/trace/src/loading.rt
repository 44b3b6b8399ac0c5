// A graph from the bytes of two lists, into areas that the host lends.
ghost use Rattle.std.specs.Prelude.{◌≡◌, length};
ghost use Rattle.load.specs.Load.{room_of, load_call, library};
ghost use Rattle.trace.specs.Load.{load_told, load_tells};

use crate::code::code;
use load::load;

#[unsafe(no_mangle)]
pub extern "C" fn trace_load(
    mode: u64,
    vertices: &[u8],
    edges: &[u8],
    ids: &mut [i64],
    out_offsets: &mut [usize],
    out_targets: &mut [usize],
    in_offsets: &mut [usize],
    in_sources: &mut [usize],
) -> u64
    ensures { load_told result ids.new out_offsets.new out_targets.new in_offsets.new
        in_sources.new
        ≡ load_tells (load_call library mode
        (room_of (length ids.old) (length out_offsets.old) (length out_targets.old)
        (length in_offsets.old) (length in_sources.old))
        vertices.now edges.now) }
{
    code(load(
        mode as usize,
        vertices,
        edges,
        ids,
        out_offsets,
        out_targets,
        in_offsets,
        in_sources,
    ))
}
