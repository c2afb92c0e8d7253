//! Laws of tables. Each function does nothing; its contract is a law that `specs/Laws.antt` defines.
//! Nothing calls the functions of this module.
ghost use Rattle.schema_types.specs.Laws.{NoTableAtAFault, TablesAreSingle, SelectionsAreSingle};

fn no_table_at_a_fault()
    ensures { NoTableAtAFault }
{}

fn tables_are_single()
    ensures { TablesAreSingle }
{}

fn selections_are_single()
    ensures { SelectionsAreSingle }
{}
