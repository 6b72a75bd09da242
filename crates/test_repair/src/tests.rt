//! That there is memory for a bench and for columns.
use cod_region::MemRegion;
use cod_repair::{Bench, Columns};
use cod_types::Geometry;

#[test]
fn memory_is_had(rt: HostRuntime) {
    let columns: Columns<MemRegion> = Columns::new(rt.alloc()).expect(&rt, "memory");
    assert!(rt; columns.len() == 0);
    if let Ok(g) = Geometry::new(4, 2, 1, 1, 40, 1, 5000) {
        let bench = Bench::new(rt.alloc(), &g).expect(&rt, "memory");
        assert!(rt; bench.geometry().n() == 4);
    }
}
