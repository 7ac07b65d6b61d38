//! What no clause says: that the calls succeed, and that the definitions are those of the product. Each line has the
//! name in the path, or `-` for none, the body, and the stored object or the fault.
ghost use Rattle.object_forms.specs.Kinds.{IsFormed};

use doc_tree::{Kind, Name, Text, Tree, json_text, read_json};
use object_forms::{FormFault, read_object, stored_objects_read_back};
use std::alloc::Global;
use std::test::Fail;

const NODES: &str =
    r#"- {"name":"web1"} => {"automatic":{},"chef_environment":"_default","chef_type":"node","default":{},"json_class":"Chef::Node","name":"web1","normal":{},"override":{},"run_list":[]}
- {"name":"web1","chef_type":"node","json_class":"Chef::Node","chef_environment":"prod","run_list":["recipe[a]","b::c@1.2","role[web]"],"normal":{"n":1},"default":{"d":[null,true]},"override":{"o":{"p":"q"}},"automatic":{"fqdn":"web1.example"},"policy_name":"app","policy_group":"live","extra":1} => {"automatic":{"fqdn":"web1.example"},"chef_environment":"prod","chef_type":"node","default":{"d":[null,true]},"json_class":"Chef::Node","name":"web1","normal":{"n":1},"override":{"o":{"p":"q"}},"policy_group":"live","policy_name":"app","run_list":["recipe[a]","recipe[b::c@1.2]","role[web]"]}
- {"name":"_acl"} => {"automatic":{},"chef_environment":"_default","chef_type":"node","default":{},"json_class":"Chef::Node","name":"_acl","normal":{},"override":{},"run_list":[]}
- [] => bad field name
- "web1" => bad field name
- null => bad field name
- {} => bad field name
- {"name":1} => bad field name
- {"name":""} => bad field name
- {"name":"a b"} => bad field name
- {"name":"web1","chef_type":"role"} => bad field chef_type
- {"name":"web1","chef_type":null} => bad field chef_type
- {"name":"web1","json_class":"Chef::Role"} => bad field json_class
- {"name":"web1","chef_environment":""} => bad field chef_environment
- {"name":"web1","chef_environment":"a/b"} => bad field chef_environment
- {"name":"web1","run_list":{}} => bad field run_list
- {"name":"web1","run_list":"recipe[a]"} => bad field run_list
- {"name":"web1","run_list":[1]} => bad field run_list
- {"name":"web1","run_list":["a","recipe[b"]} => bad field run_list
- {"name":"web1","run_list":["a@1"]} => bad field run_list
- {"name":"web1","normal":[]} => bad field normal
- {"name":"web1","default":null} => bad field default
- {"name":"web1","override":"x"} => bad field override
- {"name":"web1","automatic":false} => bad field automatic
- {"name":"web1","policy_name":null} => bad field policy_name
- {"name":"web1","policy_group":"a b"} => bad field policy_group
- {"policy_name":0,"chef_type":0} => bad field name
- {"name":"web1","automatic":0,"json_class":0,"chef_type":0} => bad field chef_type
- {"name":"web1","run_list":0,"chef_environment":0} => bad field chef_environment
- {"name":"web1","automatic":0,"default":0,"normal":0,"override":0,"policy_group":0} => bad field normal
- {"name":"web1","automatic":0,"override":0,"default":0} => bad field default
- {"name":"web1","automatic":0,"override":0} => bad field override
- {"name":"web1","policy_group":0,"policy_name":0} => bad field policy_name
web1 {} => {"automatic":{},"chef_environment":"_default","chef_type":"node","default":{},"json_class":"Chef::Node","name":"web1","normal":{},"override":{},"run_list":[]}
web1 {"name":"web1","run_list":["a"]} => {"automatic":{},"chef_environment":"_default","chef_type":"node","default":{},"json_class":"Chef::Node","name":"web1","normal":{},"override":{},"run_list":["recipe[a]"]}
web1 {"name":"web2"} => bad field name
web1 {"name":null} => bad field name
web1 [] => bad field name
"#;

const ROLES: &str =
    r#"- {"name":"web"} => {"chef_type":"role","default_attributes":{},"description":"","env_run_lists":{},"json_class":"Chef::Role","name":"web","override_attributes":{},"run_list":[]}
- {"name":"web","description":"Wéb","run_list":["apache"],"env_run_lists":{"prod":["apache::ssl","role[base]"],"dev":[]},"default_attributes":{"a":1},"override_attributes":{"b":{}},"policy_name":"x"} => {"chef_type":"role","default_attributes":{"a":1},"description":"Wéb","env_run_lists":{"dev":[],"prod":["recipe[apache::ssl]","role[base]"]},"json_class":"Chef::Role","name":"web","override_attributes":{"b":{}},"run_list":["recipe[apache]"]}
- {"description":"web"} => bad field name
- {"name":"web","chef_type":"node"} => bad field chef_type
- {"name":"web","json_class":"Chef::Node"} => bad field json_class
- {"name":"web","description":null} => bad field description
- {"name":"web","run_list":["role[a::b]"]} => bad field run_list
- {"name":"web","env_run_lists":[]} => bad field env_run_lists
- {"name":"web","env_run_lists":{"a b":[]}} => bad field env_run_lists
- {"name":"web","env_run_lists":{"prod":{}}} => bad field env_run_lists
- {"name":"web","env_run_lists":{"dev":["a"],"prod":["role[]"]}} => bad field env_run_lists
- {"name":"web","default_attributes":[]} => bad field default_attributes
- {"name":"web","override_attributes":""} => bad field override_attributes
- {"name":"web","run_list":0,"description":0,"env_run_lists":0} => bad field description
- {"name":"web","default_attributes":0,"env_run_lists":0,"run_list":0} => bad field run_list
- {"name":"web","default_attributes":0,"env_run_lists":0} => bad field env_run_lists
web {"chef_type":"role","json_class":"Chef::Role"} => {"chef_type":"role","default_attributes":{},"description":"","env_run_lists":{},"json_class":"Chef::Role","name":"web","override_attributes":{},"run_list":[]}
web {"name":"db"} => bad field name
"#;

const ENVIRONMENTS: &str =
    r#"- {"name":"prod"} => {"chef_type":"environment","cookbook_versions":{},"default_attributes":{},"description":"","json_class":"Chef::Environment","name":"prod","override_attributes":{}}
- {"name":"prod","description":"live","cookbook_versions":{"nginx":"~>1.2","apt":" 1.0.0 "},"default_attributes":{"a":[]},"override_attributes":{"b":-1},"run_list":0} => {"chef_type":"environment","cookbook_versions":{"apt":" 1.0.0 ","nginx":"~>1.2"},"default_attributes":{"a":[]},"description":"live","json_class":"Chef::Environment","name":"prod","override_attributes":{"b":-1}}
- {"name":["prod"]} => bad field name
- {"name":"prod","chef_type":"role"} => bad field chef_type
- {"name":"prod","json_class":""} => bad field json_class
- {"name":"prod","description":5} => bad field description
- {"name":"prod","cookbook_versions":[]} => bad field cookbook_versions
- {"name":"prod","cookbook_versions":{"a":1}} => bad field cookbook_versions
- {"name":"prod","cookbook_versions":{"a":"~> 1"}} => bad field cookbook_versions
- {"name":"prod","cookbook_versions":{"a":">= 1.0","b":"=> 1.0"}} => bad field cookbook_versions
- {"name":"prod","cookbook_versions":{"a/b":"1.0"}} => bad field cookbook_versions
- {"name":"prod","default_attributes":null} => bad field default_attributes
- {"name":"prod","override_attributes":[]} => bad field override_attributes
- {"name":"prod","override_attributes":0,"default_attributes":0,"cookbook_versions":0} => bad field cookbook_versions
prod {"name":"prod","cookbook_versions":{"a":"= 2.0"}} => {"chef_type":"environment","cookbook_versions":{"a":"= 2.0"},"default_attributes":{},"description":"","json_class":"Chef::Environment","name":"prod","override_attributes":{}}
prod {"name":"dev"} => bad field name
"#;

const CLIENTS: &str = r#"- {"name":"ci"} => {"name":"ci","validator":false}
- {"name":"ci","validator":true,"admin":true,"chef_type":0} => {"name":"ci","validator":true}
- {"validator":true} => bad field name
- {"name":"ci","validator":null} => bad field validator
- {"name":"ci","validator":"true"} => bad field validator
ci {"validator":false} => {"name":"ci","validator":false}
ci {"name":"cd","validator":0} => bad field name
"#;

const BAGS: &str = r#"- {"name":"users"} => {"name":"users"}
- {"name":"users","chef_type":0,"json_class":"Chef::DataBagItem","raw_data":{}} => {"name":"users"}
- {} => bad field name
- {"name":"a/b"} => bad field name
users {} => {"name":"users"}
"#;

const ITEMS: &str = r#"- {"id":"alice"} => {"id":"alice"}
- {"name":5,"id":"alice","groups":["a",{"b":null}],"chef_type":0} => {"chef_type":0,"groups":["a",{"b":null}],"id":"alice","name":5}
- {"json_class":"Chef::DataBagItem","name":"data_bag_item_users_alice","raw_data":{"shell":"zsh","id":"alice"}} => {"id":"alice","shell":"zsh"}
- {"json_class":"Chef::DataBagItem","raw_data":{"json_class":"Chef::DataBagItem","id":"a","raw_data":{"id":"b"}}} => {"id":"a","json_class":"Chef::DataBagItem","raw_data":{"id":"b"}}
- {"id":"alice","json_class":"Chef::DataBagItem","raw_data":[]} => {"id":"alice","json_class":"Chef::DataBagItem","raw_data":[]}
- {"id":"alice","json_class":"Chef::DataBagItem"} => {"id":"alice","json_class":"Chef::DataBagItem"}
- {"id":"alice","json_class":"Chef::Node","raw_data":{"id":"bob"}} => {"id":"alice","json_class":"Chef::Node","raw_data":{"id":"bob"}}
- {"id":"alice","raw_data":{"id":"bob"}} => {"id":"alice","raw_data":{"id":"bob"}}
- {"name":"alice"} => bad field id
- [] => bad field id
- {"id":1} => bad field id
- {"id":"a b"} => bad field id
- {"id":"_acl"} => bad field id
- {"id":"alice","json_class":"Chef::DataBagItem","raw_data":{"shell":"zsh"}} => bad field id
- {"id":"alice","json_class":"Chef::DataBagItem","raw_data":{"id":"_acl"}} => bad field id
alice {"shell":"zsh"} => {"id":"alice","shell":"zsh"}
alice {"id":"alice","raw_data":0} => {"id":"alice","raw_data":0}
alice {"json_class":"Chef::DataBagItem","raw_data":{"shell":"zsh"}} => {"id":"alice","shell":"zsh"}
alice {"id":"bob"} => bad field id
alice {"id":"alice","json_class":"Chef::DataBagItem","raw_data":{"id":"bob"}} => bad field id
_acl {"id":"_acl"} => bad field id
"#;

const GROUPS: &str =
    r#"- {"groupname":"ops"} => {"actors":{"clients":[],"groups":[],"users":[]},"groupname":"ops"}
- {"name":"ops","actors":1,"extra":1} => {"actors":{"clients":[],"groups":[],"users":[]},"groupname":"ops"}
- {"name":1,"groupname":"ops","actors":{"users":["ann"]}} => {"actors":{"clients":[],"groups":[],"users":[]},"groupname":"ops"}
- {} => bad field groupname
- [] => bad field groupname
- null => bad field groupname
- {"groupname":"","name":"ops"} => bad field groupname
- {"groupname":null} => bad field groupname
- {"name":"a b"} => bad field name
ops {} => {"actors":{"clients":[],"groups":[],"users":[]},"groupname":"ops"}
ops {"groupname":"ops","actors":{"users":["zed","ann","zed"],"clients":["c10","c1","c"],"groups":["users","admins"]},"extra":1} => {"actors":{"clients":["c","c1","c10"],"groups":["admins","users"],"users":["ann","zed"]},"groupname":"ops"}
ops {"name":"ops","actors":{"clients":["c1"],"extra":1}} => {"actors":{"clients":["c1"],"groups":[],"users":[]},"groupname":"ops"}
ops {"name":1,"groupname":"ops"} => {"actors":{"clients":[],"groups":[],"users":[]},"groupname":"ops"}
ops {"groupname":"dev"} => bad field groupname
ops {"name":"dev"} => bad field name
ops {"groupname":"dev","actors":1} => bad field groupname
ops {"actors":[]} => bad field actors
ops {"actors":null} => bad field actors
ops {"actors":{"users":{}}} => bad field actors
ops {"actors":{"users":["ann",1]}} => bad field actors
ops {"actors":{"clients":"c1"}} => bad field actors
ops {"actors":{"clients":[null]}} => bad field actors
ops {"actors":{"groups":0}} => bad field actors
ops {"actors":{"groups":[[]]}} => bad field actors
"#;

/// The Name that a text is; `-` is none.
fn name_from(alloc: Global, text: &str) -> Result<Option<Name>, Fail> {
    if text == "-" {
        return Ok(None);
    }
    let name = Name::of(Text::from_str(alloc, text)?);
    Ok(Some(name.ok().ok_or("a name")?))
}

fn written(alloc: Global, tree: &Tree) -> Result<String, Fail> {
    let text = json_text(alloc, tree)?;
    Ok(String::from_utf8_lossy(alloc, text.as_slice())?)
}

/// The stored object or the fault.
fn stored(alloc: Global, read: Result<Tree, FormFault>) -> Result<String, Fail> {
    match read {
        Ok(object) => written(alloc, &object),
        Err(fault) => Ok(fault.to_string(alloc)?),
    }
}

fn told(alloc: Global, kind: Kind, name: &str, body: &str) -> Result<String, Fail>
    requires { IsFormed kind }
{
    let tree = read_json(alloc, body.as_bytes())?;
    let name = name_from(alloc, name)?;
    stored(alloc, read_object(alloc, kind, &tree, name.as_ref()))
}

/// A line, as reading its body tells it.
fn line_told(alloc: Global, kind: Kind, line: &str) -> Result<String, Fail>
    requires { IsFormed kind }
{
    let (sent, _) = line.split_once(" => ").unwrap_or((line, ""));
    let (name, body) = sent.split_once(' ').unwrap_or((sent, ""));
    let told = told(alloc, kind, name, body)?;
    Ok(format!(in alloc; "{sent} => {told}")?)
}

/// The lines that reading tells otherwise.
fn lines_otherwise(alloc: Global, kind: Kind, lines: &str) -> Result<String, Fail>
    requires { IsFormed kind }
{
    let mut otherwise = String::new(alloc);
    for line in lines.lines() {
        let told = line_told(alloc, kind, line)?;
        if told.as_str() != line {
            otherwise.push_str(told.as_str())?;
            otherwise.push_str("\n")?;
        }
    }
    Ok(otherwise)
}

#[test]
fn bodies_are_read_and_stored(rt: HostRuntime) -> Result<(), Fail> {
    stored_objects_read_back();
    let alloc = rt.alloc();
    assert_eq!(rt; lines_otherwise(alloc, Kind::Node, NODES)?.as_str(), "");
    assert_eq!(rt; lines_otherwise(alloc, Kind::Role, ROLES)?.as_str(), "");
    assert_eq!(rt;
        lines_otherwise(alloc, Kind::Environment, ENVIRONMENTS)?.as_str(),
        ""
    );
    assert_eq!(rt; lines_otherwise(alloc, Kind::Client, CLIENTS)?.as_str(), "");
    assert_eq!(rt; lines_otherwise(alloc, Kind::Bag, BAGS)?.as_str(), "");
    assert_eq!(rt; lines_otherwise(alloc, Kind::Group, GROUPS)?.as_str(), "");
    assert_eq!(rt; lines_otherwise(alloc, Kind::Item, ITEMS)?.as_str(), "");
    Ok(())
}
