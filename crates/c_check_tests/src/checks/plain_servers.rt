// Servers without pointers, each accepted.

use crate::checks::verdicts::refused;
use std::test::Fail;

const SERVERS: &str = r##"int n;
void init(void) { }
void on_message(void) {
  n = n + m_in.arg[0];
  m_out.type = m_in.type + 100;
  m_out.arg[0] = n;
  send(m_in.source);
}
----
int n;
void init(void) { }
void on_message(void) {
  int i;
  for (i = 0; i < 10; i = i + 1) { n = n + 1; }
  m_out.type = 1;
  m_out.arg[0] = n;
  send(m_in.source);
}
----
void init(void) { }
void on_message(void) {
  m_out.type = 50;
  m_out.arg[0] = m_in.arg[0] + 1;
  send(m_in.source);
}
----
int pending;
int who;
void init(void) { }
void on_message(void) {
  if (m_in.type == 9) { m_out.type = 19; send(m_in.source); return; }
  if (m_in.source == 2) {
    pending = pending - 1;
    m_out.type = 11;
    m_out.arg[0] = m_in.arg[0];
    send(who);
    return;
  }
  pending = pending + 1;
  who = m_in.source;
  m_out.type = m_in.type;
  m_out.arg[0] = m_in.arg[0];
  send(2);
}
----
int pending;
int who;
void init(void) { }
void on_message(void) {
  if (m_in.type == 9) { m_out.type = 19; send(m_in.source); return; }
  if (m_in.source == 2) {
    pending = pending - 1;
    m_out.type = 12;
    m_out.arg[0] = m_in.arg[0];
    send(who);
    return;
  }
  pending = pending + 1;
  who = m_in.source;
  m_out.type = m_in.type;
  m_out.arg[0] = m_in.arg[0];
  send(2);
}
----
struct e { int x; };
struct e tab[3];
void init(void) { tab[0].x = 5; tab[2].x = 7; }
void on_message(void) { m_out.type = 1; m_out.arg[0] = tab[m_in.arg[0]].x; send(m_in.source); }
----
long long n;
void init(void) { }
void on_message(void) {
  n = n + m_in.arg[0];
  m_out.type = m_in.type + 100;
  m_out.arg[0] = n;
  m_out.arg[1] = n / 1000;
  send(m_in.source);
}
----
void init(void) { }
void on_message(void) {
  m_out.type = 1;
  m_out.arg[0] = 100 / m_in.arg[0];
  send(m_in.source);
}
----
void init(void) { }
void on_message(void) {
  m_out.type = 1;
  m_out.arg[0] = -7 / 2;
  m_out.arg[1] = -7 % 2;
  m_out.arg[2] = (unsigned char)300;
  m_out.arg[3] = -1 < 1u;
  m_out.arg[4] = (char)200;
  m_out.arg[5] = -8 >> 1;
  send(m_in.source);
}
----
int n;
void init(void) { }
void on_message(void) { }
----
struct e { int x; };
union w { int i; struct e s; };
union w g;
void init(void) { g.s.x = 3; }
void on_message(void) { }
----
int n;
void init(void) { }
void on_message(void) {
  n = n + m_in.arg[0];
  m_out.type = m_in.type + 100;
  m_out.arg[0] = n;
  send(m_in.source);
}
void ad(void) { m_out.type = m_in.type + 1; m_out.arg[0] = 10 / m_in.arg[0]; }
----
int who;
void init(void) { }
void on_message(void) {
  m_out.type = m_in.type;
  m_out.arg[0] = m_in.arg[0];
  m_out.arg[1] = m_in.arg[1];
  if (m_in.source >= 900) { send(who); return; }
  who = m_in.source;
  send(900);
}
----
int who;
void init(void) { }
void on_message(void) {
  m_out.type = m_in.type;
  m_out.arg[0] = m_in.arg[0];
  m_out.arg[1] = m_in.arg[1];
  if (m_in.source >= 900) { send(who); return; }
  who = m_in.source;
  send(901);
}
----
int n;
void init(void) { }
void on_message(void) {
  n = n - m_in.arg[0];
  m_out.type = m_in.type + 100;
  m_out.arg[0] = n;
  send(m_in.source);
}
----
void init(void) { }
void on_message(void) { while (1) { } }
----
void init(void) { }
void on_message(void) { on_message(); }
"##;

#[test]
fn servers_without_pointers_are_accepted(rt: HostRuntime) -> Result<(), Fail> {
    assert_eq!(rt; refused(rt.alloc(), SERVERS)?.as_str(), "");
    Ok(())
}
