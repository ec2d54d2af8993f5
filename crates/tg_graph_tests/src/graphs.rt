use std::test::Fail;
use tg_graph::Graph;

#[test]
fn registers_alone_interfere_at_first(rt: HostRuntime) -> Result<(), Fail> {
    let graph = Graph::new(rt.alloc(), 40)?;
    assert_eq!(rt; graph.nodes(), 40);
    for a in 0..40 {
        for b in 0..40 {
            assert_eq!(rt; graph.interferes(a, b), a != b && a < 25 && b < 25);
        }
    }
    for a in 25..40 {
        assert_eq!(rt; graph.degree(a), 0);
    }
    Ok(())
}

#[test]
fn edges_go_both_ways(rt: HostRuntime) -> Result<(), Fail> {
    let mut graph = Graph::new(rt.alloc(), 40)?;
    graph.add_edge(25, 39)?;
    graph.add_edge(3, 25)?;
    graph.add_edge(26, 25)?;
    assert!(rt; graph.interferes(25, 39) && graph.interferes(39, 25));
    assert!(rt; graph.interferes(25, 3) && graph.interferes(3, 25));
    assert!(rt; !graph.interferes(39, 26) && !graph.interferes(24, 25));
    assert!(rt; !graph.interferes(3, 26) && !graph.interferes(39, 38));
    assert_eq!(rt; graph.neighbours(25), &[39, 3, 26][..]);
    assert_eq!(rt; graph.neighbours(39), &[25][..]);
    assert_eq!(rt;
        (graph.degree(25), graph.degree(26), graph.degree(27)),
        (3, 1, 0)
    );
    Ok(())
}

#[test]
fn an_edge_added_again_changes_nothing(rt: HostRuntime) -> Result<(), Fail> {
    let mut graph = Graph::new(rt.alloc(), 40)?;
    graph.add_edge(30, 31)?;
    graph.add_edge(31, 30)?;
    graph.add_edge(30, 31)?;
    graph.add_edge(7, 8)?;
    assert_eq!(rt; graph.neighbours(30), &[31][..]);
    assert_eq!(rt; (graph.degree(30), graph.degree(31)), (1, 1));
    Ok(())
}
