/// The first line of the message for a refused command line.
pub const USAGE_LINE: &str = "usage: linkerd_cli replay|diagnose|fold|sample|serve\n";

/// The rest of the usage, which is written if there are no words or they ask for help.
pub const USAGE: &str = "
  replay      reads a feed, and writes the frames that its subscribers are sent
  diagnose    reads a feed, and writes the view of one query at its end
  fold        reads what replay wrote, and writes the view of one subscriber
  sample N    replays a generated cluster of N Services, 0 to 1000, and writes
              one line of counts
  serve       listens on a TCP port, reads feeds from its links, and sends each
              proxy its frames

Input is standard input, and for serve what its links send. A feed has one JSON
value a line: watch events and lists of Kubernetes objects, and control lines,
as docs/FEED.md describes.

Options are written --name VALUE or --name=VALUE.

Options of replay, diagnose, sample and serve, with their defaults:
  --cluster-domain NAME            cluster.local
  --trust-domain NAME              cluster.local
  --control-plane-namespace NAME   linkerd
  --cluster-networks NETWORK,..
      10.0.0.0/8,100.64.0.0/10,172.16.0.0/12,192.168.0.0/16
  --default-policy POLICY          all-unauthenticated
      or all-authenticated, cluster-unauthenticated, cluster-authenticated,
      deny, audit

Options of diagnose and fold, which need both:
  --id ID                          0 to 4294967295
  --method METHOD                  Get, GetProfile, WatchPort, WatchPort2
                                   or Watch

Options of diagnose, by method:
  --path TARGET                    needed by Get, GetProfile and Watch:
                                   NAME.NAMESPACE.svc.DOMAIN[:PORT], or for
                                   GetProfile and Watch also IP[:PORT]
  --workload NAMESPACE:POD         needed by WatchPort and WatchPort2
  --port PORT                      needed by WatchPort and WatchPort2,
                                   1 to 65535
  --token TOKEN                    for Get and GetProfile: what a proxy says
                                   about itself, as JSON

Option of serve, which needs it:
  --bind ADDRESS:PORT              where it listens, as 127.0.0.1:8086 or
                                   [::1]:8086; the port is 1 to 65535

Examples:
  linkerd_cli replay < feed.jsonl
  linkerd_cli diagnose --id 1 --method Get \\
      --path web.app.svc.cluster.local:80 < feed.jsonl

Exit status: 0 done, 1 done with refused lines, 2 usage, 3 out of memory,
4 reading failed, 5 writing failed, 6 input too long. Of serve: 0 stopped by a
feed, 2 usage, 3 out of memory, 4 listening failed.
";
