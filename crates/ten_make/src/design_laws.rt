//! What holds of designs whose runs are done by states of cells.

ghost use Rattle.std.specs.Prelude.{◌≡◌, ℕ, List, All, map, take};
ghost use Rattle.ten_core.specs.vl_design.specs.Alone.{Origin};
ghost use Rattle.ten_core.specs.vl_design.specs.Laws.{StartsFine};
ghost use Rattle.ten_core.specs.vl_design.specs.Syntax.{Flat};
ghost use Rattle.ten_core.specs.vl_design.specs.Width.{names_of};
ghost use Rattle.sub_split.specs.sub_nodes.specs.Code.{table_of};
ghost use Rattle.sub_split.specs.sub_nodes.specs.Early.{early_from};
ghost use Rattle.sub_split.specs.sub_nodes.specs.Pairs.{ArePaired};
ghost use Rattle.sub_split.specs.Views.{node_view};
ghost use Rattle.sub_split.specs.declared.table.Node.{Node};
ghost use Rattle.cell_states.specs.Designs.{IsCellDesign};
ghost use Rattle.cell_states.specs.Pieces.{IsCellNode};
ghost use Rattle.ten_core.specs.ten_form.specs.Banks.{cell_nodes};
ghost use Rattle.ten_core.specs.ten_form.specs.Works.{HaveBytes};
ghost use Rattle.ten_core.specs.ten_form.specs.Delays.{DelaysVariables};
ghost use Rattle.ten_core.specs.ten_form.specs.Paired.{CallsStandApart};
ghost use Rattle.ten_core.specs.Runs.{IsTame};
ghost use Rattle.ten_make.specs.Designs.{IsTenantDesign};

use sub_runs::laws::an_update_begins_on_committed_values;
use ten_core::laws::each_stage_is_tidy;

/// Such a design is one whose nodes are compiled.
pub fn tenants_designs_are_compiled()
    ensures { (d : Flat) (order : List ℕ) → IsTenantDesign d order → IsCellDesign d order }
{}

/// Each node of its table behind time zero's wave is one that is compiled: its statements hold no call, and their blocking assignments
/// are to signals.
pub fn nodes_of_a_tenants_design_are_compiled()
    ensures { (d : Flat) (order : List ℕ) (nodes : List Node) → IsTenantDesign d order → map node_view nodes ≡ (table_of d).nodes →
        All (IsCellNode (names_of d)) (take (early_from d) nodes) }
{}

/// Behind time zero's wave just a segment that goes to a call leads there, and the call's node stands right behind it.
pub fn calls_of_a_table_stand_apart()
    ensures apart { (d : Flat) → CallsStandApart (cell_nodes d) }
    ensures paired { (d : Flat) → ArePaired 0 (cell_nodes d) }
{}

/// In such a design nonblocking assignments name neither computed signals nor loop variables nor clocks.
pub fn a_tenants_design_delays_variables()
    ensures { (d : Flat) (order : List ℕ) → IsTenantDesign d order → DelaysVariables d }
{}

/// Runs of such a design are tame over files of bytes, from time zero and from a snapshot whose words fit.
pub fn runs_of_a_tenants_design_are_tame()
    ensures { (o : Origin) (order : List ℕ) → IsTenantDesign o.flat order → HaveBytes o.files → StartsFine o.flat.rows o.resume → IsTame o order }
{
    each_stage_is_tidy();
    an_update_begins_on_committed_values();
}
