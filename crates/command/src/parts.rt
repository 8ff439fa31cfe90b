// The number of parts.
ghost use Rattle.network.specs.Network.{graph_of};
ghost use Rattle.command.specs.inner.Steps.{GraphPassed, PartCount};

use network::lent::Network;

// Has the nodes of 64 cameras and 680 points.
pub fn count_parts(net: &Network<'_>) -> usize
    requires { GraphPassed (graph_of net.now) }
    ensures { PartCount (graph_of net.now) result }
{
    let mut nodes = [0usize; 744];
    let mut labels = [0usize; 64];
    let s = net.shape;
    let n = s.cameras;
    let counted = graph::parts(s, net.ends, net.weights, &mut nodes, &mut labels[..n]);
    counted.unwrap_or(0)
}
