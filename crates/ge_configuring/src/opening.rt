// The names of the opening table of complexes, which are never taken away.
ghost use Rattle.std.specs.Prelude.{◌≡◌, map};
ghost use Rattle.std.specs.List.{list_any};
ghost use Rattle.std.specs.Map.{keys_of};
ghost use Rattle.ge_model_config.specs.Cited.{has_name};
ghost use Rattle.ge_model_rows.specs.Complexes.{opening_complexes};

use ge_pieces::is_in;
use ge_rows::Text;

fn names() -> [&'static [u8]; 26]
    ensures { map (λ name. name.now) result ≡ keys_of opening_complexes }
{
    [
        b"arch",
        b"h_core",
        b"h_cpu",
        b"h_data",
        b"h_fsize",
        b"h_rss",
        b"h_rt",
        b"h_stack",
        b"h_vmem",
        b"hostname",
        b"load_avg",
        b"mem_free",
        b"mem_total",
        b"np_load_avg",
        b"num_proc",
        b"qname",
        b"s_core",
        b"s_cpu",
        b"s_data",
        b"s_fsize",
        b"s_rss",
        b"s_rt",
        b"s_stack",
        b"s_vmem",
        b"slots",
        b"virtual_free",
    ]
}

/// Whether a name is one of the opening table's.
pub(crate) fn is_opening_complex(name: &Text) -> bool
    ensures { result ≡ has_name opening_complexes name.now }
{
    is_in(name.bytes(), &names())
}
